// Takes a batch of sheets, a line of hexadecimal each, and prints the quotation: the lines of each kind, what was refused, and how much was taken.
#![tactic(auto)]

ghost use Rattle.quote.specs.Quotation.{quotation, totals_text};
ghost use Rattle.std.specs.Io.KnownBytes.{Appends};
ghost use Rattle.std.specs.Prelude.{◌++◌, OnOk, vec_items};

mod batch;
mod lists;
mod remark;

use crate::batch::{Taken, take_batch};
use crate::lists::write_lines;
use amounts::AmountLeaf;
use days::DayLeaf;
use leaf::Leaf;
use list::Leaves;
use std::alloc::Global;
use std::io;
use std::io::{BufWriter, Read, Write};

// Places of each table.
const PLACES: usize = 1024;

// Writes the quotation of a batch.
fn quote<W: Write>(heap: Global, batch: &[u8], out: &mut W) -> io::Result<()>
    ensures { OnOk result (Appends (W.contents out.old) (W.contents out.new) (quotation batch.now)) }
{
    let mut amount_table = [AmountLeaf::blank(); PLACES];
    let mut day_table = [DayLeaf::blank(); PLACES];
    let mut amounts = Leaves::open(&mut amount_table);
    let mut days = Leaves::open(&mut day_table);
    let taken = take_batch(heap, batch, &mut amounts, &mut days)?;
    let amount_lines = write_lines(out, "amounts", &mut amounts)?;
    let day_lines = write_lines(out, "days", &mut days)?;
    write_taken(out, &taken, amount_lines.saturating_add(day_lines))
}

// What there was to remark, and what was completed.
fn write_taken<W: Write>(out: &mut W, taken: &Taken, lines: usize) -> io::Result<()>
    ensures { OnOk result (Appends (W.contents out.old) (W.contents out.new)
        (vec_items taken.now.remarks ++ totals_text taken.now.sheets taken.now.accepted lines taken.now.refused taken.now.malformed)) }
{
    let Taken {
        sheets,
        accepted,
        refused,
        malformed,
        remarks,
    } = taken;
    out.write_all(remarks)?;
    writeln!(
        out,
        "sheets taken {sheets}, leaves accepted {accepted}, lines billed {lines}, refusals {refused}, malformed lines {malformed}"
    )
}

fn main(rt: HostRuntime) -> io::Result<()> {
    let mut batch = Vec::new(rt.alloc());
    rt.stdin().read_to_end(&mut batch)?;
    let mut out = BufWriter::new(rt.alloc(), rt.stdout())?;
    quote(rt.alloc(), &batch, &mut out)?;
    out.flush()
}
