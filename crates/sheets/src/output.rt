ghost use Rattle.std.specs.Prelude.{◌≡◌, ◌+◌, ◌<◌, ◌≤◌, [], ◌∷◌, ◌++◌, length, take, IfOk, OnErr, OnOk, vec_capacity, vec_len};
ghost use Rattle.list.specs.Held.{Tells, stopped};
ghost use Rattle.list.specs.Runs.{Promised};
ghost use Rattle.list.specs.Runs.Call.{sheet as call-sheet};
ghost use Rattle.list.specs.Sheets.{sheet_outcome};
ghost use Rattle.sheets.specs.Output.{Prints, stop_text};

use leaf::{Fault, Leaf};
use list::{Leaves, SheetAnswer};
use std::alloc::{AllocError, Global};
use texts::{Line, append_line, append_lines};

// What a sheet came to: the list's answer, and the lines and what refused it as text.
#[derive(Drop)]
pub struct Printed {
    pub answer: SheetAnswer,
    pub text: Vec<u8>,
}

// How many lines a sheet came to, and the list's answer.
#[derive(Clone, Copy)]
struct Taken {
    count: usize,
    answer: SheetAnswer,
}

// Takes the sheet into a new list in the table: the lines then stand in front in it.
fn take_sheet<V: Copy, L: Leaf<V>>(table: &mut [L], sheet: &[u8]) -> Taken
    ensures within { result.count ≤ length table.new }
    ensures answer { Tells result.answer (sheet_outcome L.kind (length table.old) sheet.now []) }
    ensures promised { Promised L.kind (length table.old) (call-sheet sheet.now ∷ []) (take result.count table.new) }
{
    let mut list = Leaves::open(table);
    let answer = list.sheet(sheet);
    Taken {
        count: list.count(),
        answer,
    }
}

// What refused the sheet, if anything did, behind what is there.
fn append_stop(text: &mut Vec<u8>, stop: Option<Fault>) -> Result<(), AllocError>
    ensures ok { OnOk result (text.new.items ≡ text.old.items ++ stop_text (stopped stop)) }
    ensures err { OnErr result (text.new.items ≡ text.old.items) }
    ensures full { OnErr result (vec_capacity text.old < vec_len text.old + length (stop_text (stopped stop))) }
{
    match stop {
        None => Ok(()),
        Some(fault) => append_line(text, &fault),
    }
}

// What the sheet comes to in a new list in the table.
pub(crate) fn output_of<V: Copy, L: Leaf<V> + Line>(
    heap: Global,
    table: &mut [L],
    sheet: &[u8],
) -> Result<Printed, AllocError>
    ensures { IfOk result (λ p. Prints L.kind L.Line.text (length table.old) sheet.now p) }
{
    let Taken { count, answer } = take_sheet(table, sheet);
    let mut text = Vec::new(heap);
    append_lines(&mut text, &table[..count])?;
    append_stop(&mut text, answer.fault)?;
    Ok(Printed { answer, text })
}
