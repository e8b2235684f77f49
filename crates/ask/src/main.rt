// Answers questions: each line of standard input is an amount leaf as text and an amount, or a day leaf and a date.
#![tactic(auto)]

ghost use Rattle.ask.specs.Output.{output_of};
ghost use Rattle.std.specs.Io.KnownBytes.{Appends};
ghost use Rattle.std.specs.Prelude.{OnOk};

mod amount_line;
mod amount_text;
mod day_line;
mod day_text;
mod line;
mod wrong;

use crate::line::ask_line;
use notation::Lines;
use questions::Tally;
use std::alloc::Global;
use std::io;
use std::io::{BufWriter, Read, Write};

// Writes what each line of the text comes to, and last how many came to what.
// A loop in each program: one call for all would take a closure, and ask of its caller that this may be called.
fn ask_all<W: Write>(heap: Global, text: &[u8], out: &mut W) -> io::Result<()>
    ensures { OnOk result (Appends (W.contents out.old) (W.contents out.new) (output_of text.now)) }
{
    let mut tally = Tally::default();
    for (k, line) in (1u64..).zip(Lines::of(text)) {
        tally.report(out, k, ask_line(heap, line))?;
    }
    writeln!(out, "{tally}")
}

fn main(rt: HostRuntime) -> io::Result<()> {
    let mut text = Vec::new(rt.alloc());
    rt.stdin().read_to_end(&mut text)?;
    let mut out = BufWriter::new(rt.alloc(), rt.stdout())?;
    ask_all(rt.alloc(), &text, &mut out)?;
    out.flush()
}
