ghost use Rattle.foreign.specs.Shown.{Texts, TextsNothing, TextsPrinted};
ghost use Rattle.sheets.specs.Rest.{RestsGoOn, rest_sheet};
ghost use Rattle.std.specs.Bool.{OnFalse, OnTrue};
ghost use Rattle.std.specs.Prelude.{◌≡◌, true, length};
ghost use Rattle.texts.specs.Text.{fitting, over};

use crate::taken::Taken;
use sheets::{Printed, print_sheet, put_rest};
use std::alloc::Global;
use texts::put_bytes;

/// What a sheet came to as text. Where memory ran out, `done` is false and all else is zero.
#[repr(C)]
#[derive(Clone, Copy)]
pub struct SheetText {
    pub done: bool,
    pub sheet: Taken,
    /// The bytes of the whole text, of which the buffer has as many as there was room for.
    pub length: usize,
}

// What is told where memory ran out.
const NOT_DONE: SheetText = SheetText {
    done: false,
    sheet: Taken {
        accepted: 0,
        start: 0,
        refusal: 0,
        byte: 0,
    },
    length: 0,
};

// What was printed, its text at the front of the buffer.
fn hand(printed: &Printed, out: &mut [u8]) -> SheetText
    ensures done { result.done ≡ true }
    ensures told { TextsPrinted printed.now out.old out.new result }
{
    let _ = put_bytes(out, 0, &printed.text);
    SheetText {
        done: true,
        sheet: printed.answer.into(),
        length: printed.text.len(),
    }
}

/// What a sheet comes to in a new list of 128 places: its lines as text, and last what refused it, at the front of the buffer.
#[unsafe(no_mangle)]
pub extern "C" fn rule_lines_print(heap: Global, sheet: &[u8], out: &mut [u8]) -> SheetText
    ensures prints { OnTrue result.done (Texts sheet.now out.old out.new result) }
    ensures nothing { OnFalse result.done (TextsNothing out.old out.new result) }
{
    match print_sheet(heap, sheet) {
        Ok(printed) => hand(&printed, out),
        Err(_) => NOT_DONE,
    }
}

/// The sheet that goes on from the byte `start` of another: the byte of the kind, then the leaves from `start` on. It stands at the front of
/// the buffer, as far as there is room; the answer is how many bytes it has. A sheet that found the table full so goes on in a new one.
#[unsafe(no_mangle)]
pub extern "C" fn rule_lines_rest(sheet: &[u8], start: usize, out: &mut [u8]) -> usize
    ensures length { result ≡ length (rest_sheet start sheet.now) }
    ensures text { out.new ≡ over out.old 0 (fitting out.old 0 (rest_sheet start sheet.now)) }
    ensures goes_on { RestsGoOn }
{
    put_rest(out, sheet, start)
}
