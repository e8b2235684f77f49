ghost use Rattle.std.specs.Prelude.{◌≤◌, length};
ghost use Rattle.texts.specs.Cursors.{Put};
ghost use Rattle.texts.specs.Refusals.{place_text, refusal_text};
ghost use Rattle.faults.specs.Faults.{shown};

use crate::cursor::Cursor;
use crate::lines::Line;
use leaf::Fault;

// The byte that a refusal names, if it names one.
fn put_place(out: &mut Cursor, byte: Option<usize>)
    ensures put { Put out.old (place_text byte) out.new }
    ensures short { length (place_text byte) ≤ 24 }
{
    if let Some(place) = byte {
        out.bytes(b" at ");
        out.decimal(place as u64);
    }
}

// A refusal prints as a line.
impl Line for Fault {
    ghost text = { λ f. refusal_text (shown f) };

    fn put(&self, out: &mut Cursor) {
        out.bytes(b"refused ");
        out.decimal(u64::from(self.refusal.number()));
        put_place(out, self.byte);
        out.byte(b'\n');
    }
}
