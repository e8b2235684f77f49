ghost use Rattle.ask.specs.Output.{wrong_text};
ghost use Rattle.questions.specs.declared.answer.Objection.TheVariants.{Malformed};
ghost use Rattle.std.specs.Prelude.{◌≡◌, Some};

use questions::Objection;
use std::fmt;

// What is wrong with a line's text: how many fields it has, or a field of a question about amounts or about days.
#[derive(Clone, Copy)]
pub(crate) enum Wrong {
    Fields,
    MinimumAmount,
    MaximumAmount,
    Required,
    Barred,
    Amount,
    MinimumDate,
    MaximumDate,
    Weekdays,
    Date,
}

impl fmt::Display for Wrong {
    ghost output = { λ wrong. Some (wrong_text wrong) };

    fn fmt<W: fmt::Write>(&self, f: &mut fmt::Formatter<W>) -> fmt::Result {
        f.write_str(match self {
            Wrong::Fields => "neither four nor five fields with a space between",
            Wrong::MinimumAmount => "the minimum is no amount",
            Wrong::MaximumAmount => "the maximum is no amount",
            Wrong::Required => "the required list is no list of divisors",
            Wrong::Barred => "the barred list is no list of divisors",
            Wrong::Amount => "the value is no 64-bit amount",
            Wrong::MinimumDate => "the minimum is no date",
            Wrong::MaximumDate => "the maximum is no date",
            Wrong::Weekdays => "the weekdays are no ascending digits from 1 to 7",
            Wrong::Date => "the value is no date",
        })
    }
}

// Not for any M beside `Objection`: there it would overlap with what a refusal gives.
impl From<Wrong> for Objection<Wrong> {
    ghost from_gives = { λ w o. o ≡ Malformed w };

    fn from(wrong: Wrong) -> Objection<Wrong> {
        Objection::Malformed(wrong)
    }
}
