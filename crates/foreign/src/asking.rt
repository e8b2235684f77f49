ghost use Rattle.amounts.specs.Amounts.{amounts};
ghost use Rattle.foreign.specs.Shown.{Answers};
ghost use Rattle.leaf.specs.Kind.{admits as admitted};
ghost use Rattle.list.specs.Held.{Settled, held_of};
ghost use Rattle.list.specs.Lists.{any};
ghost use Rattle.list.specs.Runs.{reading};
ghost use Rattle.std.specs.Prelude.{◌≡◌, length, if◌then◌else◌};

use crate::taken::Taken;
use amounts::AmountLeaf;
use leaf::Leaf;
use list::Leaves;

/// Whether an amount is admitted, and how far the sheet was taken that was asked.
#[repr(C)]
#[derive(Clone, Copy)]
pub struct Answer {
    pub admitted: bool,
    pub sheet: Taken,
}

// Whether a held leaf admits the value; with `read` whether a line of them does.
fn admits<V: Copy, L: Leaf<V>>(list: &mut Leaves<V, L>, value: V, read: bool) -> bool
    ensures { Settled L.kind list.old
        → result ≡ any (λ x. admitted L.kind x value) (if read then reading L.kind (held_of list.old) else held_of list.old) }
{
    if !read {
        return list.admits(value);
    }
    let _ = list.count();
    list.admits(value)
}

// Asks what the sheet leaves in a new list in the table.
fn ask<V: Copy, L: Leaf<V>>(table: &mut [L], sheet: &[u8], value: V, read: bool) -> Answer
    ensures { Answers L.kind (length table.old) sheet.now value read result }
{
    let mut list = Leaves::open(table);
    let answer = list.sheet(sheet);
    Answer {
        admitted: admits(&mut list, value, read),
        sheet: answer.into(),
    }
}

/// Whether a leaf admits the amount of those that a sheet of amounts leaves in a new list of 128 places; with `read` whether a line does.
/// Where the sheet was stopped, the answer is for what was accepted before.
#[unsafe(no_mangle)]
pub extern "C" fn rule_lines_admit(sheet: &[u8], value: i64, read: bool) -> Answer
    ensures { Answers amounts 128 sheet.now value read result }
{
    ask(&mut [AmountLeaf::blank(); 128], sheet, value, read)
}
