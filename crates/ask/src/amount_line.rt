ghost use Rattle.ask.specs.AmountQuestions.{amount_outcome, outcome_of};
ghost use Rattle.questions.specs.Outcomes.{said};
ghost use Rattle.std.specs.Prelude.{◌≡◌, IfSome, Some};

use crate::amount_text::{amount_bound_of, value_of};
use crate::wrong::Wrong;
use amounts::{AmountLeaf, WrittenAmount};
use divisors::Fraction;
use leaf::admits;
use notation::divisors;
use questions::Objection;
use std::alloc::Global;

// The fields of a question about amounts.
#[derive(Clone, Copy)]
pub(crate) struct AmountFields<'a> {
    pub minimum: &'a [u8],
    pub maximum: &'a [u8],
    pub required: &'a [u8],
    pub barred: &'a [u8],
    pub value: &'a [u8],
}

// Whether the leaf of these bounds and divisors admits a value.
fn ask_leaf(
    low: Option<WrittenAmount>,
    high: Option<WrittenAmount>,
    required: &[Fraction],
    barred: &[Fraction],
    v: i64,
) -> Result<bool, Objection<Wrong>>
    ensures { said result ≡ Some (outcome_of low high required.now barred.now v) }
{
    let leaf = AmountLeaf::new(low, high, required, barred)?;
    Ok(admits(&leaf, v))
}

// What a question about amounts comes to, by the text of its fields.
pub(crate) fn ask_amount(heap: Global, fields: &AmountFields<'_>) -> Result<bool, Objection<Wrong>>
    ensures { IfSome (said result) (λ o. o ≡ amount_outcome fields.now.minimum.now fields.now.maximum.now fields.now.required.now fields.now.barred.now fields.now.value.now) }
{
    let low = amount_bound_of(fields.minimum).ok_or(Wrong::MinimumAmount)?;
    let high = amount_bound_of(fields.maximum).ok_or(Wrong::MaximumAmount)?;
    let required = divisors(heap, fields.required)?.ok_or(Wrong::Required)?;
    let barred = divisors(heap, fields.barred)?.ok_or(Wrong::Barred)?;
    let v = value_of(fields.value).ok_or(Wrong::Amount)?;
    ask_leaf(low, high, &required, &barred, v)
}
