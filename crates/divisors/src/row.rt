ghost use Rattle.divisors.specs.Dividing.{TellsDivided, TellsDividing, bars_no_more, divide_all};
ghost use Rattle.divisors.specs.Fractions.{is_multiple};
ghost use Rattle.divisors.specs.Laws.{BarredLaws, OrderLaws, RequiredLaws};
ghost use Rattle.divisors.specs.Lists.{at_most, every, sole_of, some, tidy_of};
ghost use Rattle.divisors.specs.Rows.{fractions, padded};
ghost use Rattle.divisors.specs.Written.{Admits, Spares, lowest_above, refusal_of_more};
ghost use Rattle.faults.specs.Faults.{refused_with};
ghost use Rattle.std.specs.Prelude.{◌≡◌, ◌≤◌, ◌↔◌, true, false, [], ◌∷◌, ◌++◌, length, IfSome, IsTrue, OnErr, OnOk, unsigned_abs};

use crate::fraction::Fraction;
use faults::{Fault, Refusal};
use std::cmp::Ordering;

// The places of a row.
pub(crate) const PLACES: usize = 6;

// What stands in a row's free places.
pub(crate) const NONE: Fraction = Fraction { p: 0, q: 0 };

/// Fractions in the first `count` of six places: plain, so that it can lie in a table. `==` is that of the lists held where free places
/// hold nothing, as in each row made here.
#[derive(Clone, Copy, PartialEq, Eq, Debug)]
pub struct Row {
    pub(crate) items: [Fraction; 6],
    pub(crate) count: usize,
}

impl Row {
    /// A row that holds none.
    pub fn empty() -> Row
        ensures none { fractions result ≡ [] }
        ensures padded { padded result ≡ true }
    {
        Row {
            items: [NONE; PLACES],
            count: 0,
        }
    }

    // One divisor as written, in lowest terms; none where its numerator is not above `above`.
    pub(crate) fn single(w: Fraction, above: u64) -> Row
        ensures row { fractions result ≡ tidy_of (lowest_above above (w ∷ [])) }
        ensures few { length (fractions result) ≤ 1 }
        ensures padded { padded result ≡ true }
    {
        let f = w.lowest_terms();
        if f.p <= above {
            return Row::empty();
        }
        Row {
            items: [f, NONE, NONE, NONE, NONE, NONE],
            count: 1,
        }
    }

    // The row of a list of at most one divisor as written, likewise; none of a longer list.
    pub(crate) fn short(ws: &[Fraction], above: u64) -> Option<Row>
        ensures row { IfSome result (λ r. fractions r ≡ tidy_of (lowest_above above ws.now)) }
        ensures few { IfSome result (λ r. length (fractions r) ≤ 1) }
        ensures padded { IfSome result (λ r. padded r ≡ true) }
    {
        match ws {
            [] => Some(Row::empty()),
            [w] => Some(Row::single(*w, above)),
            _ => None,
        }
    }

    /// Puts a fraction behind the others, as it is.
    ///
    /// Refused with 6 where six are held.
    #[tactic(auto, using(crate::proofs::Padded::padded_more))]
    pub fn push(&mut self, f: Fraction) -> Result<(), Fault>
        ensures refuses { refused_with result ≡ refusal_of_more (fractions self.old) }
        ensures pushes { OnOk result (fractions self.new ≡ fractions self.old ++ f ∷ []) }
        ensures padded { padded self.old ≡ true → padded self.new ≡ true }
        ensures kept { OnErr result (self.new ≡ self.old) }
    {
        if self.count >= PLACES {
            return Err(Fault::unplaced(Refusal::ManyDivisors));
        }
        self.items[self.count] = f;
        self.count += 1;
        Ok(())
    }

    /// The fractions held.
    pub fn fractions(&self) -> &[Fraction]
        ensures list { result.now ≡ fractions self.now }
        ensures few { length result.now ≤ 6 }
    {
        &self.items[..self.count.min(PLACES)]
    }

    /// Whether an integer is a multiple of each.
    pub fn divide(&self, v: i64) -> bool
        ensures value { result ≡ every (is_multiple (unsigned_abs v)) (fractions self.now) }
        ensures means { IsTrue result ↔ Admits (fractions self.now) v }
    {
        self.fractions().iter().all(|f| f.divides(v))
    }

    /// Whether an integer is a multiple of one.
    pub fn bars(&self, v: i64) -> bool
        ensures value { result ≡ some (is_multiple (unsigned_abs v)) (fractions self.now) }
        ensures means { (result ≡ false) ↔ Spares (fractions self.now) v }
    {
        self.fractions().iter().any(|f| f.divides(v))
    }

    /// The divisor that stands for the whole row, where it has just one.
    pub fn sole(&self) -> Option<Fraction>
        ensures { result ≡ sole_of (fractions self.now) }
    {
        match self.fractions() {
            [f] => Some(*f),
            _ => None,
        }
    }

    /// Whether this row is no higher: item by item, a row that ends first being lower.
    #[tactic(auto, using(crate::specs::Lawful::order_laws))]
    pub fn is_at_most(&self, other: &Row) -> bool
        ensures value { result ≡ at_most (fractions self.now) (fractions other.now) }
        ensures laws { OrderLaws }
    {
        let (mine, others) = (self.fractions(), other.fractions());
        for (f, g) in mine.iter().zip(others) {
            match f.cmp(*g) {
                Ordering::Less => return true,
                Ordering::Greater => return false,
                Ordering::Equal => {}
            }
        }
        mine.len() <= others.len()
    }

    /// Whether each of these divides one of the other row. The fractions are taken for reduced.
    #[tactic(auto, using(crate::specs::Lawful::required_laws))]
    pub fn divide_all(&self, other: &Row) -> bool
        ensures value { result ≡ divide_all (fractions self.now) (fractions other.now) }
        ensures means { TellsDividing (fractions self.now) (fractions other.now) result }
        ensures laws { RequiredLaws }
    {
        let (divisors, multiples) = (self.fractions(), other.fractions());
        divisors
            .iter()
            .all(|f| multiples.iter().any(|g| f.divides_reduced(*g)))
    }

    /// Whether each of these is divided by one of the other row: not `divide_all` turned, whose each and one stay where they are. The
    /// fractions are taken for reduced.
    #[tactic(auto, using(crate::specs::Lawful::barred_laws))]
    pub fn bars_no_more_than(&self, other: &Row) -> bool
        ensures value { result ≡ bars_no_more (fractions self.now) (fractions other.now) }
        ensures means { TellsDivided (fractions self.now) (fractions other.now) result }
        ensures laws { BarredLaws }
    {
        let (multiples, divisors) = (self.fractions(), other.fractions());
        multiples
            .iter()
            .all(|f| divisors.iter().any(|g| g.divides_reduced(*f)))
    }
}
