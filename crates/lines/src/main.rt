// Prints the lines of the sheet on standard input, and what refused it.
#![tactic(auto)]

ghost use Rattle.sheets.specs.Output.{sheet_output};
ghost use Rattle.std.specs.Io.KnownBytes.{Appends};
ghost use Rattle.std.specs.Prelude.{◌≡◌, IfOk, IfSome, OnOk, vec_items};

use sheets::print_sheet;
use std::alloc::Global;
use std::io;
use std::io::{Read, Write};

// One byte more than a sheet may have: a longer input is refused as one of so many bytes is.
const MOST: u64 = 32_769;

// The bytes of an input, as many as matter to what is printed of them.
fn read_sheet<R: Read + Drop>(heap: Global, input: R) -> io::Result<Vec<u8>>
    ensures { IfOk result (λ v. IfSome (R.remaining input) (λ bytes. sheet_output (vec_items v) ≡ sheet_output bytes)) }
{
    let mut sheet = Vec::new(heap);
    input.take(MOST).read_to_end(&mut sheet)?;
    Ok(sheet)
}

// Writes what a sheet comes to.
fn print_lines<W: Write>(heap: Global, sheet: &[u8], out: &mut W) -> io::Result<()>
    ensures { OnOk result (Appends (W.contents out.old) (W.contents out.new) (sheet_output sheet.now)) }
{
    let printed = print_sheet(heap, sheet)?;
    out.write_all(&printed.text)
}

fn main(rt: HostRuntime) -> io::Result<()> {
    let sheet = read_sheet(rt.alloc(), rt.stdin())?;
    let mut out = rt.stdout();
    print_lines(rt.alloc(), &sheet, &mut out)?;
    out.flush()
}
