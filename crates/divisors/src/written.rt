ghost use Rattle.std.specs.Prelude.{◌≡◌, ◌≤◌, true, length};
ghost use Rattle.divisors.specs.Laws.{WorkedFolds};
ghost use Rattle.divisors.specs.Rows.{fractions, is_folded, is_thinned};
ghost use Rattle.divisors.specs.Written.{FoldOf, ThinOf, are_in_range, refusal_of, refusal_of_both};
ghost use Rattle.faults.specs.Faults.{refused_with};

use crate::fraction::Fraction;
use crate::row::{PLACES, Row};
use crate::working::Working;
use faults::{Fault, Refusal};

// Whether each numerator and denominator is from 1 to 2^63 - 1.
fn all_in_range(ws: &[Fraction]) -> bool
    ensures { result ≡ are_in_range ws.now }
{
    ws.iter().all(|w| w.is_in_range())
}

/// Looks at required and barred divisors as written.
///
/// Refused with 5 where a part of either list is 0 or above 2^63 - 1, else with 6 where either has more than six.
pub fn check(required: &[Fraction], barred: &[Fraction]) -> Result<(), Fault>
    ensures { refused_with result ≡ refusal_of_both required.now barred.now }
{
    if !all_in_range(required) || !all_in_range(barred) {
        return Err(Fault::unplaced(Refusal::BadPart));
    }
    if required.len() > PLACES || barred.len() > PLACES {
        return Err(Fault::unplaced(Refusal::ManyDivisors));
    }
    Ok(())
}

// What is refused of one list of divisors as written.
pub(crate) fn check_list(ws: &[Fraction]) -> Result<(), Fault>
    ensures { refused_with result ≡ refusal_of ws.now }
{
    check(ws, &[])
}

// The folded row of divisors as written. At most one, as most lists are, needs no working list.
pub(crate) fn folded_row(ws: &[Fraction]) -> Row
    requires { (are_in_range ws.now ≡ true) × (length ws.now ≤ 6) }
    ensures folds { FoldOf ws.now (fractions result) }
    ensures kept { is_folded result ≡ true }
    ensures worked { WorkedFolds }
{
    if let Some(row) = Row::short(ws, 1) {
        return row;
    }
    let mut work = Working::of_written(ws, 1);
    work.fold();
    work.row()
}

// The thinned row of divisors as written.
pub(crate) fn thinned_row(ws: &[Fraction]) -> Row
    requires { (are_in_range ws.now ≡ true) × (length ws.now ≤ 6) }
    ensures thins { ThinOf ws.now (fractions result) }
    ensures kept { is_thinned result ≡ true }
{
    if let Some(row) = Row::short(ws, 0) {
        return row;
    }
    let mut work = Working::of_written(ws, 0);
    work.thin();
    work.row()
}

// Whether a row holds a folded list: one that is in range and folds to itself.
pub(crate) fn is_folded(row: &Row) -> bool
    ensures { result ≡ is_folded row.now }
{
    let list = row.fractions();
    all_in_range(list) && *row == folded_row(list)
}

// Whether a row holds a thinned list: one that is in range and thins to itself.
pub(crate) fn is_thinned(row: &Row) -> bool
    ensures { result ≡ is_thinned row.now }
{
    let list = row.fractions();
    all_in_range(list) && *row == thinned_row(list)
}
