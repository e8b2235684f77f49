ghost use Rattle.divisors.specs.Folding.{FirstJoin, FirstStrip, FoldsTo, NoJoin, NoStrip, TellsJoin, TellsStep, TellsStrip, weight};
ghost use Rattle.divisors.specs.Lists.{IsTidy};
ghost use Rattle.divisors.specs.Rows.{held};
ghost use Rattle.std.specs.Bool.{OnTrue};
ghost use Rattle.std.specs.Prelude.{◌<◌, ◌≤◌, MatchOption};

use crate::fraction::Fraction;
use crate::working::Working;

// Two places of a list, and the join of what stands there.
#[derive(Clone, Copy)]
pub(crate) struct Pair {
    left: usize,
    right: usize,
    join: Fraction,
}

// A fraction's place, the place of the one that strips it, and what is left.
#[derive(Clone, Copy)]
pub(crate) struct Strip {
    at: usize,
    by: usize,
    left: Fraction,
}

impl Working {
    // The first pair that has a join, lowest left, then lowest right.
    fn first_join(&self) -> Option<Pair>
        requires { self.now.count ≤ 12 }
        ensures { MatchOption result (NoJoin (held self.now)) (λ t. FirstJoin (held self.now) t) }
    {
        let list = self.as_slice();

        for (left, x) in list.iter().enumerate() {
            for (right, y) in list.iter().enumerate().skip(left + 1) {
                if let Some(join) = x.checked_lcm(*y) {
                    return Some(Pair { left, right, join });
                }
            }
        }
        None
    }

    // The first pair that has a join is joined; false where there is none. A bool, for `||` and `while`: there is no more to tell.
    fn join_once(&mut self) -> bool
        requires fits { self.old.count ≤ 12 }
        requires tidy { IsTidy (held self.old) }
        ensures join { TellsJoin (held self.old) (held self.new) result }
        ensures tidy { IsTidy (held self.new) }
        ensures count { self.new.count ≤ self.old.count }
    {
        let Some(t) = self.first_join() else {
            return false;
        };
        self.replace(t.left, t.join);
        self.remove(t.right);
        self.tidy();
        true
    }

    // The first fraction that another strips, by the lowest other that can.
    fn first_strip(&self) -> Option<Strip>
        requires { self.now.count ≤ 12 }
        ensures { MatchOption result (NoStrip (held self.now)) (λ t. FirstStrip (held self.now) t) }
    {
        let list = self.as_slice();

        for (at, x) in list.iter().enumerate() {
            for (by, y) in list.iter().enumerate() {
                if at != by {
                    if let Some(left) = x.without_factors_of(*y) {
                        return Some(Strip { at, by, left });
                    }
                }
            }
        }
        None
    }

    // Where no pair has a join, the first fraction that another strips is stripped; false where there is none, as above.
    fn strip_once(&mut self) -> bool
        requires fits { self.old.count ≤ 12 }
        requires tidy { IsTidy (held self.old) }
        requires joinless { NoJoin (held self.old) }
        ensures strip { TellsStrip (held self.old) (held self.new) result }
        ensures tidy { IsTidy (held self.new) }
        ensures count { self.new.count ≤ self.old.count }
    {
        let Some(t) = self.first_strip() else {
            return false;
        };
        self.replace(t.at, t.left);
        self.tidy();
        true
    }

    // One join, or else one strip; false where there is neither, as above.
    fn step(&mut self) -> bool
        requires fits { self.old.count ≤ 12 }
        requires tidy { IsTidy (held self.old) }
        ensures step { TellsStep (held self.old) (held self.new) result }
        ensures lighter { OnTrue result (weight (held self.new) < weight (held self.old)) }
        ensures tidy { IsTidy (held self.new) }
        ensures count { self.new.count ≤ self.old.count }
    {
        self.join_once() || self.strip_once()
    }

    // Joins and strips until neither happens.
    pub(crate) fn fold(&mut self)
        requires fits { self.old.count ≤ 12 }
        requires tidy { IsTidy (held self.old) }
        ensures folds { FoldsTo (held self.old) (held self.new) }
        ensures tidy { IsTidy (held self.new) }
        ensures count { self.new.count ≤ self.old.count }
    {
        while self.step() {}
    }
}
