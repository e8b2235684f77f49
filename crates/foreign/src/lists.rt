ghost use Rattle.divisors.specs.Rows.{fractions};
ghost use Rattle.divisors.specs.Written.{FoldOf, ThinOf, refusal_of};
ghost use Rattle.faults.specs.Faults.{number_of};
ghost use Rattle.foreign.specs.Shown.{Hands, HandsNone, Holds};
ghost use Rattle.std.specs.Prelude.{None, Some};

use divisors::{Folded, Fraction, Row, Thinned};
use faults::Fault;

/// A kept list of divisors, in the first `count` of six places, and 0/0 in the others. Where the list as written was refused, the number of
/// what refused it, and no divisor.
#[repr(C)]
#[derive(Clone, Copy)]
pub struct Divisors {
    pub places: [Fraction; 6],
    pub count: usize,
    pub refusal: u8,
}

// What stands in free places.
const NONE: Fraction = Fraction { p: 0, q: 0 };

impl Divisors {
    // The fractions of a row.
    fn of_row(row: Row) -> Divisors
        ensures { Hands (fractions row) result }
    {
        let list = row.fractions();
        let mut places = [NONE; 6];
        places[..list.len()].copy_from_slice(list);
        Divisors {
            places,
            count: list.len(),
            refusal: 0,
        }
    }

    // No divisor, and why.
    fn refused(fault: Fault) -> Divisors
        ensures { HandsNone (number_of fault.refusal) result }
    {
        Divisors {
            places: [NONE; 6],
            count: 0,
            refusal: fault.refusal.number(),
        }
    }
}

/// The folded list of required divisors as written; refused 5 where a part is 0 or above 2^63 − 1, else 6 where there are more than six.
#[unsafe(no_mangle)]
pub extern "C" fn rule_lines_fold(written: &[Fraction]) -> Divisors
    ensures { Holds (refusal_of written.now) (FoldOf written.now) result }
{
    match Folded::over_integers(written) {
        Ok(folded) => Divisors::of_row(folded.row()),
        Err(fault) => Divisors::refused(fault),
    }
}

/// The thinned list of barred divisors as written, refused as `rule_lines_fold` refuses.
#[unsafe(no_mangle)]
pub extern "C" fn rule_lines_thin(written: &[Fraction]) -> Divisors
    ensures { Holds (refusal_of written.now) (ThinOf written.now) result }
{
    match Thinned::undivided(written) {
        Ok(thinned) => Divisors::of_row(thinned.row()),
        Err(fault) => Divisors::refused(fault),
    }
}
