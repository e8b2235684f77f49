// Replays sheets with the answers that were expected of them, a line each, and counts those that differ.
#![tactic(auto)]

ghost use Rattle.cases.specs.Cases.{answer_to, bytes_of, is_as_expected};
ghost use Rattle.std.specs.Option.{option_map};
ghost use Rattle.std.specs.Prelude.{◌≡◌, IfOk, string_bytes, vec_items};

mod told;

use crate::told::{Hex, Told};
use hex_text::read_hex;
use notation::split_once;
use replays::{Replay, replay_all};
use sheets::print_sheet;
use std::alloc::{AllocError, Global};
use std::io;
use std::io::{Read, Write};

// Bytes in hexadecimal; a dash alone is none.
fn bytes_of(heap: Global, text: &[u8]) -> Result<Option<Vec<u8>>, AllocError>
    ensures { IfOk result (λ o. option_map vec_items o ≡ bytes_of text.now) }
{
    match text {
        [b'-'] => Ok(Some(Vec::new(heap))),
        _ => read_hex(heap, text),
    }
}

// The answer to a sheet, as a case writes it.
fn answer_to(heap: Global, sheet: &[u8]) -> Result<String, AllocError>
    ensures { IfOk result (λ s. string_bytes s ≡ answer_to sheet.now) }
{
    let printed = print_sheet(heap, sheet)?;
    let told = Told(printed.answer);
    let text = Hex(&printed.text);
    format!(in heap; "{told} {text}")
}

// Sheets, each with the answer of a list to it.
#[derive(Clone, Copy)]
struct SheetCases {
    heap: Global,
}

impl Replay for SheetCases {
    ghost holds = { is_as_expected };

    // Whether the sheet that a case begins with has the answer that follows it.
    fn holds(&self, case: &[u8]) -> Result<bool, AllocError> {
        let Some((sheet, expected)) = split_once(case, b' ') else {
            return Ok(false);
        };
        let Some(sheet) = bytes_of(self.heap, sheet)? else {
            return Ok(false);
        };
        let answer = answer_to(self.heap, &sheet)?;
        Ok(answer.as_bytes() == expected)
    }
}

fn main(rt: HostRuntime) -> io::Result<()> {
    let mut text = Vec::new(rt.alloc());
    rt.stdin().read_to_end(&mut text)?;
    let cases = SheetCases { heap: rt.alloc() };
    let mut out = rt.stdout();
    let same = replay_all(&cases, &text, &mut out)?;
    out.flush()?;
    if !same {
        return Err(io::Error::other("an answer differs"));
    }
    Ok(())
}
