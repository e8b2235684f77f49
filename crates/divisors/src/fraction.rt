ghost use Rattle.divisors.specs.Dividing.{Divides, divides};
ghost use Rattle.divisors.specs.Fractions.{BySize, LowestTerms, MultipleOf, in_range, is_multiple, lower, reduce_of, same};
ghost use Rattle.divisors.specs.Joining.{IsJoin, IsStrip, join_of, strip_by};
ghost use Rattle.divisors.specs.Laws.{WorkedDivides};
ghost use Rattle.faults.specs.Faults.{refused_with, unplaced};
ghost use Rattle.std.specs.Prelude.{◌≡◌, ◌↔◌, true, not, ◌&&◌, IfOk, IsTrue, if◌then◌else◌, Some, None, unsigned_abs};

use crate::whole::{LARGEST, gcd, is_multiple, lcm, order, stripped};
use faults::{Fault, Refusal};
use std::cmp::Ordering;

/// A fraction p/q, as written or in lowest terms; laid out as in C, for callers there. Parts may be anything: each question answers.
#[repr(C)]
#[derive(Clone, Copy, PartialEq, Eq, Debug)]
pub struct Fraction {
    pub p: u64,
    pub q: u64,
}

impl Fraction {
    /// The fraction in lowest terms.
    ///
    /// Refused with 5 where a part is 0 or above 2^63 - 1.
    pub fn reduced(self) -> Result<Fraction, Fault>
        ensures refuses { refused_with result ≡ (if in_range self then None else Some (unplaced 5)) }
        ensures reduces { IfOk result (λ f. LowestTerms self f) }
    {
        if !self.is_in_range() {
            return Err(Fault::unplaced(Refusal::BadPart));
        }
        Ok(self.lowest_terms())
    }

    /// The order by size. Not an `Ord`: 1/2 and 2/4 tie, and are not equal.
    pub fn cmp(self, other: Fraction) -> Ordering
        ensures { BySize self other result }
    {
        if self.q == other.q && self.q != 0 {
            self.p.cmp(&other.p)
        } else {
            order(self.p, self.q, other.p, other.q)
        }
    }

    /// Whether an integer is a multiple of this fraction.
    pub fn divides(self, v: i64) -> bool
        ensures value { result ≡ is_multiple (unsigned_abs v) self }
        ensures means { IsTrue result ↔ MultipleOf self v }
    {
        is_multiple(v.unsigned_abs(), self.p, self.q)
    }

    /// Whether another fraction is a whole multiple of this one, by size: 4/2 divides 2/1.
    #[tactic(auto, using(crate::specs::Lawful::worked_divides))]
    pub fn divides_divisor(self, other: Fraction) -> bool
        ensures means { IsTrue result ↔ Divides self other }
        ensures worked { WorkedDivides }
    {
        self.lowest_terms().divides_reduced(other.lowest_terms())
    }

    /// The join: the least common multiple of the numerators over the greatest common divisor of the denominators.
    pub fn checked_lcm(self, other: Fraction) -> Option<Fraction>
        ensures value { result ≡ join_of self other }
        ensures joins { IsJoin self other result }
    {
        let p = lcm(self.p, other.p)?;
        Some(Fraction {
            p,
            q: gcd(self.q, other.q),
        })
    }

    /// A whole fraction, one whose denominator is 1, without what its numerator shares with that of another whole one; nothing where
    /// nothing can go.
    pub fn without_factors_of(self, other: Fraction) -> Option<Fraction>
        ensures value { result ≡ strip_by self other }
        ensures strips { IsStrip self other result }
    {
        if self.q != 1 || other.q != 1 || self.p == 0 {
            return None;
        }
        stripped(self.p, other.p).map(|p| Fraction { p, q: 1 })
    }

    // Whether both parts are from 1 to 2^63 - 1.
    pub(crate) fn is_in_range(self) -> bool
        ensures { result ≡ in_range self }
    {
        0 < self.p && self.p <= LARGEST && 0 < self.q && self.q <= LARGEST
    }

    // The fraction in lowest terms; 0/0 stays.
    pub(crate) fn lowest_terms(self) -> Fraction
        ensures value { result ≡ reduce_of self }
        ensures reduces { in_range self ≡ true → LowestTerms self result }
    {
        let g = gcd(self.p, self.q);
        if g == 0 {
            return Fraction { p: 0, q: 0 };
        }
        if g == 1 {
            return self;
        }
        Fraction {
            p: self.p / g,
            q: self.q / g,
        }
    }

    // Whether this fraction is lower by size.
    pub(crate) fn is_lower(self, other: Fraction) -> bool
        ensures { result ≡ lower self other }
    {
        self.cmp(other).is_lt()
    }

    // Whether one reduced fraction divides another.
    pub(crate) fn divides_reduced(self, other: Fraction) -> bool
        ensures { result ≡ divides self other }
    {
        self.p != 0 && other.q != 0 && other.p % self.p == 0 && self.q % other.q == 0
    }

    // Whether a reduced fraction divides another one that is not the same.
    pub(crate) fn divides_other(self, other: Fraction) -> bool
        ensures { result ≡ (divides self other && not (same self other)) }
    {
        self.divides_reduced(other) && self != other
    }
}
