ghost use Rattle.divisors.specs.Written.{refusal_of_both};
ghost use Rattle.fold.specs.Outcomes.{folded_or, outcome_of, said};
ghost use Rattle.fold.specs.Texts.{wrong_text};
ghost use Rattle.questions.specs.declared.answer.Objection.TheVariants.{Malformed};
ghost use Rattle.std.specs.Prelude.{◌≡◌, IfSome, Some};

use divisors::{Folded, Fraction, Thinned, check};
use notation::{divisors, split_once};
use questions::Objection;
use std::alloc::Global;
use std::fmt;

// What is wrong with a line's text.
#[derive(Clone, Copy)]
pub(crate) enum Wrong {
    NotTwoLists,
    NoRequiredList,
    NoBarredList,
}

impl fmt::Display for Wrong {
    ghost output = { λ wrong. Some (wrong_text wrong) };

    fn fmt<W: fmt::Write>(&self, f: &mut fmt::Formatter<W>) -> fmt::Result {
        f.write_str(match self {
            Wrong::NotTwoLists => "not two lists with a space between",
            Wrong::NoRequiredList => "the required list is no list of divisors",
            Wrong::NoBarredList => "the barred list is no list of divisors",
        })
    }
}

impl From<Wrong> for Objection<Wrong> {
    ghost from_gives = { λ w o. o ≡ Malformed w };

    fn from(wrong: Wrong) -> Objection<Wrong> {
        Objection::Malformed(wrong)
    }
}

// The folded required list and the thinned barred list of divisors as written.
fn fold_lists(
    required: &[Fraction],
    barred: &[Fraction],
) -> Result<(Folded, Thinned), Objection<Wrong>>
    ensures { said result ≡ Some (folded_or (refusal_of_both required.now barred.now) required.now barred.now) }
{
    check(required, barred)?;
    Ok((
        Folded::over_integers(required)?,
        Thinned::undivided(barred)?,
    ))
}

// What a line comes to: its lists folded, a refusal, or what is wrong with the text.
pub(crate) fn fold_line(heap: Global, line: &[u8]) -> Result<(Folded, Thinned), Objection<Wrong>>
    ensures { IfSome (said result) (λ o. o ≡ outcome_of line.now) }
{
    let (required, barred) = split_once(line, b' ').ok_or(Wrong::NotTwoLists)?;
    let required = divisors(heap, required)?.ok_or(Wrong::NoRequiredList)?;
    let barred = divisors(heap, barred)?.ok_or(Wrong::NoBarredList)?;
    fold_lists(&required, &barred)
}
