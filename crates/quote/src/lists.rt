ghost use Rattle.list.specs.Held.{lines_of, places_of};
ghost use Rattle.quote.specs.Quotation.{lines_text, numbered_line};
ghost use Rattle.std.specs.Io.KnownBytes.{Appends};
ghost use Rattle.std.specs.Prelude.{◌≡◌, ◌≤◌, length, IfOk, OnOk};

use leaf::Leaf;
use list::Leaves;
use std::io;
use std::io::Write;
use texts::{Line, ROOM};

// Writes line `number` of a kind.
fn write_line<W: Write, L: Line>(out: &mut W, kind: &str, number: usize, line: &L) -> io::Result<()>
    ensures { OnOk result (Appends (W.contents out.old) (W.contents out.new) (numbered_line kind.now L.Line.text number line.now)) }
{
    let mut text = [0; ROOM];
    let length = line.write_line(&mut text).unwrap();
    write!(out, "{kind} {number}: ")?;
    out.write_all(&text[..length])
}

// Writes the lines of a list, numbered from 1, and answers how many they are.
pub(crate) fn write_lines<W: Write, V: Copy, L: Leaf<V> + Line>(
    out: &mut W,
    kind: &str,
    list: &mut Leaves<'_, V, L>,
) -> io::Result<usize>
    ensures within { IfOk result (λ n. n ≤ places_of list.old) }
    ensures count { IfOk result (λ n. n ≡ length (lines_of L.kind list.old)) }
    ensures written { OnOk result (Appends (W.contents out.old) (W.contents out.new) (lines_text kind.now L.Line.text (lines_of L.kind list.old))) }
{
    let count = list.count();
    let mut place = L::blank();
    // A line by its number, into one place: that is how the list hands its lines out.
    for n in 0..count {
        if list.line(n, &mut place) {
            write_line(out, kind, n + 1, &place)?;
        }
    }
    Ok(count)
}
