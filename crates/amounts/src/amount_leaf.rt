ghost use Rattle.amounts.specs.Amounts.{amounts};
ghost use Rattle.amounts.specs.Leaves.{barred, leaf_of, required};
ghost use Rattle.amounts.specs.Making.{MakerJudged, made_of};
ghost use Rattle.amounts.specs.Meaning.{Means};
ghost use Rattle.amounts.specs.Words.{value_of};
ghost use Rattle.amounts.specs.Worked.{WorkedLeaves};
ghost use Rattle.divisors.specs.Kept.{FoldedIn, ThinnedIn, barred_in, required_in};
ghost use Rattle.divisors.specs.Written.{refusal_of};
ghost use Rattle.faults.specs.Faults.{told};
ghost use Rattle.leaf.specs.Kind.{Lawful, is_value_window};
ghost use Rattle.std.specs.Option.{IsSomeAnd};
ghost use Rattle.std.specs.Prelude.{◌≡◌, true, IfOk, None, OnOk};

use crate::amount::WrittenAmount;
use divisors::{Folded, Fraction, Row, Thinned, check};
use leaf::{Bounds, Fault};

// A window of amounts with required and barred divisors, folded and thinned.
#[derive(Clone, Copy)]
pub struct AmountLeaf {
    pub(crate) bounds: Bounds<i64>,
    pub(crate) required: Row,
    pub(crate) barred: Row,
}

// The leaf of these bounds and of divisors as written, which were looked at before.
pub(crate) fn leaf_of(bounds: Bounds<i64>, required: &[Fraction], barred: &[Fraction]) -> AmountLeaf
    requires required { refusal_of required.now ≡ None }
    requires barred { refusal_of barred.now ≡ None }
    ensures value { result ≡ leaf_of bounds.minimum bounds.maximum required.now barred.now }
    ensures sound { is_value_window amounts bounds.minimum bounds.maximum ≡ true → Lawful amounts result }
    ensures means { Means bounds.minimum bounds.maximum required.now barred.now result }
{
    AmountLeaf {
        bounds,
        required: Folded::over_integers(required).unwrap().row(),
        barred: Thinned::undivided(barred).unwrap().row(),
    }
}

impl AmountLeaf {
    // The leaf of bounds and divisors as written. Refused are, in this order and naming no byte: 5 a part of a divisor, 6 the number of
    // divisors, 7 an amount, 8 a minimum above the maximum.
    #[tactic(auto, using(crate::proofs::Making::maker_judged))]
    pub fn new(
        minimum: Option<WrittenAmount>,
        maximum: Option<WrittenAmount>,
        required: &[Fraction],
        barred: &[Fraction],
    ) -> Result<AmountLeaf, Fault>
        ensures value { told result ≡ made_of minimum maximum required.now barred.now }
        ensures sound { IfOk result (λ a. Lawful amounts a) }
        ensures means { IfOk result (λ a. Means (value_of minimum) (value_of maximum) required.now barred.now a) }
        ensures judged { MakerJudged }
        ensures worked { OnOk result (WorkedLeaves) }
    {
        check(required, barred)?;
        let bounds = Bounds::of_written(minimum, maximum)?;
        Ok(leaf_of(bounds, required, barred))
    }

    /// The folded list of required divisors; `None` for a leaf that is not lawful, as no call gives one.
    pub fn required(&self) -> Option<Folded>
        ensures folded { FoldedIn self.now.required result }
        ensures lawful { Lawful amounts self.now → IsSomeAnd result (λ f. required_in f ≡ required self.now) }
    {
        Folded::from_row(self.required)
    }

    /// The thinned list of barred divisors; `None` for a leaf that is not lawful, as no call gives one.
    pub fn barred(&self) -> Option<Thinned>
        ensures thinned { ThinnedIn self.now.barred result }
        ensures lawful { Lawful amounts self.now → IsSomeAnd result (λ t. barred_in t ≡ barred self.now) }
    {
        Thinned::from_row(self.barred)
    }
}
