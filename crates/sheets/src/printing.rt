ghost use Rattle.sheets.specs.Output.{Prints, is_of_days, prints_sheet};
ghost use Rattle.sheets.specs.Worked.{ListsWorkedByHand};
ghost use Rattle.std.specs.Prelude.{◌≡◌, IfOk};

use crate::output::{Printed, output_of};
use amounts::AmountLeaf;
use days::DayLeaf;
use leaf::Leaf;
use std::alloc::{AllocError, Global};

// Places of the table that a sheet is taken into.
const PLACES: usize = 128;

// Whether it begins as a sheet of days.
pub fn is_of_days(sheet: &[u8]) -> bool
    ensures { result ≡ is_of_days sheet.now }
{
    sheet.first().is_some_and(|b| DayLeaf::is_kind(*b))
}

// What a sheet comes to: one that does not begin as a sheet of days is taken as one of amounts.
pub fn print_sheet(heap: Global, sheet: &[u8]) -> Result<Printed, AllocError>
    ensures prints { IfOk result (λ p. prints_sheet sheet.now p) }
    ensures worked { ListsWorkedByHand }
{
    if is_of_days(sheet) {
        output_of(heap, &mut [DayLeaf::blank(); PLACES], sheet)
    } else {
        output_of(heap, &mut [AmountLeaf::blank(); PLACES], sheet)
    }
}
