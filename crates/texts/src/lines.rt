ghost use Rattle.std.specs.Io.{StartsWith};
ghost use Rattle.std.specs.Prelude.{◌≡◌, ℕ, ◌+◌, ◌<◌, ◌≤◌, List, ◌++◌, length, OnErr, OnOk, vec_capacity, vec_len};
ghost use Rattle.texts.specs.Cursors.{Put};
ghost use Rattle.texts.specs.Text.{Texted, together};

use crate::cursor::Cursor;
use crate::put::{ROOM, has_room};
use leaf::{Fault, Refusal};
use std::alloc::AllocError;

// What prints as a line.
pub trait Line {
    ghost text: { Self → List ℕ };

    // The line's text and a line feed, as far as there is room.
    fn put(&self, out: &mut Cursor)
        ensures put { Put out.old (text self.now) out.new }
        ensures short { length (text self.now) ≤ 600 };

    // The line's text and a line feed at the front of the buffer, whose rest stays; refusal 11 where it is under 600 bytes.
    final fn write_line(&self, buf: &mut [u8]) -> Result<usize, Fault>
        ensures { Texted (text self.now) buf.old buf.new result }
    {
        if !has_room(buf.len()) {
            return Err(Fault::unplaced(Refusal::ShortBuffer));
        }
        let mut out = Cursor { buf, at: 0 };
        self.put(&mut out);
        Ok(out.at)
    }
}

/// A line and its line feed behind what is there.
///
/// # Errors
///
/// Where memory runs out; nothing is appended then.
pub fn append_line<L: Line>(out: &mut Vec<u8>, line: &L) -> Result<(), AllocError>
    ensures ok { OnOk result (out.new.items ≡ out.old.items ++ L.Line.text line.now) }
    ensures err { OnErr result (out.new.items ≡ out.old.items) }
    // It fails only where room was missing.
    ensures full { OnErr result (vec_capacity out.old < vec_len out.old + length (L.Line.text line.now)) }
    ensures capacity { vec_capacity out.old ≤ vec_capacity out.new }
{
    let mut buf = [0; ROOM];
    let mut cursor = Cursor {
        buf: &mut buf,
        at: 0,
    };
    line.put(&mut cursor);
    let end = cursor.at;
    out.extend_from_slice(&buf[..end])
}

/// The lines one after the other behind what is there.
///
/// # Errors
///
/// Where memory runs out; some of the lines may stand behind what was there then.
pub fn append_lines<L: Line>(out: &mut Vec<u8>, lines: &[L]) -> Result<(), AllocError>
    ensures ok { OnOk result (out.new.items ≡ out.old.items ++ together L.Line.text lines.now) }
    ensures err { OnErr result (StartsWith out.new.items out.old.items) }
    ensures full { OnErr result (vec_capacity out.old < vec_len out.old + length (together L.Line.text lines.now)) }
{
    for line in lines {
        append_line(out, line)?;
    }
    Ok(())
}
