ghost use Rattle.crate_answers.specs.Folds.{fold_outcome, folds_to, kept_lists};
ghost use Rattle.crate_answers.specs.Outcomes.{is_same};
ghost use Rattle.std.specs.Option.{option_map};
ghost use Rattle.std.specs.Prelude.{◌≡◌, IfOk, vec_items};

use divisors::{Folded, Fraction, Thinned};
use notation::{divisors, split_once};
use std::alloc::{AllocError, Global};

// The two lists of divisors that a text writes, if it writes two with a space between.
fn lists_of(heap: Global, text: &[u8]) -> Result<Option<(Vec<Fraction>, Vec<Fraction>)>, AllocError>
    ensures { IfOk result (λ o. option_map (λ p. (vec_items p.0, vec_items p.1)) o ≡ kept_lists text.now) }
{
    let Some((required, barred)) = split_once(text, b' ') else {
        return Ok(None);
    };
    let Some(required) = divisors(heap, required)? else {
        return Ok(None);
    };
    let Some(barred) = divisors(heap, barred)? else {
        return Ok(None);
    };
    Ok(Some((required, barred)))
}

// Whether the required divisors fold, and the barred ones thin, to these.
fn folds_to(
    required: &[Fraction],
    barred: &[Fraction],
    folded: &[Fraction],
    thinned: &[Fraction],
) -> bool
    ensures { result ≡ folds_to required.now barred.now folded.now thinned.now }
{
    let (Ok(mine), Ok(spared)) = (Folded::over_integers(required), Thinned::undivided(barred))
    else {
        return false;
    };
    mine.row().fractions() == folded && spared.row().fractions() == thinned
}

// Whether the lists of a question fold and thin to those of the answer.
pub(crate) fn is_same_fold(heap: Global, question: &[u8], answer: &[u8]) -> Result<bool, AllocError>
    ensures { IfOk result (λ b. b ≡ is_same (fold_outcome question.now answer.now)) }
{
    let Some((required, barred)) = lists_of(heap, question)? else {
        return Ok(false);
    };
    let Some((folded, thinned)) = lists_of(heap, answer)? else {
        return Ok(false);
    };
    Ok(folds_to(&required, &barred, &folded, &thinned))
}
