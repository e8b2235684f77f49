ghost use Rattle.ask.specs.DayQuestions.{day_outcome, outcome_of};
ghost use Rattle.questions.specs.Outcomes.{said};
ghost use Rattle.std.specs.Prelude.{◌≡◌, Some};

use crate::day_text::{date_bound_of, date_of, weekdays_of};
use crate::wrong::Wrong;
use days::{Date, DayLeaf, day_number};
use leaf::{Fault, Refusal, admits};
use questions::Objection;

// The fields of a question about days.
#[derive(Clone, Copy)]
pub(crate) struct DayFields<'a> {
    pub minimum: &'a [u8],
    pub maximum: &'a [u8],
    pub weekdays: &'a [u8],
    pub value: &'a [u8],
}

// Whether the leaf of these bounds and weekdays admits a date.
fn ask_leaf(
    low: Option<Date>,
    high: Option<Date>,
    set: u64,
    date: Date,
) -> Result<bool, Objection<Wrong>>
    ensures { said result ≡ Some (outcome_of low high set date) }
{
    let leaf = DayLeaf::new(low, high, set)?;
    let day = day_number(date.year, date.month, date.day).ok_or(Fault::unplaced(
        Refusal::OutOfRange,
    ))?;
    Ok(admits(&leaf, day))
}

// What a question about days comes to, by the text of its fields.
pub(crate) fn ask_day(fields: &DayFields<'_>) -> Result<bool, Objection<Wrong>>
    ensures { said result ≡ Some (day_outcome fields.now.minimum.now fields.now.maximum.now fields.now.weekdays.now fields.now.value.now) }
{
    let low = date_bound_of(fields.minimum).ok_or(Wrong::MinimumDate)?;
    let high = date_bound_of(fields.maximum).ok_or(Wrong::MaximumDate)?;
    let set = weekdays_of(fields.weekdays).ok_or(Wrong::Weekdays)?;
    let date = date_of(fields.value).ok_or(Wrong::Date)?;
    ask_leaf(low, high, set, date)
}
