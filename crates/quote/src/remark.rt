ghost use Rattle.faults.specs.Faults.{shown};
ghost use Rattle.quote.specs.Quotation.{malformed_remark, refusal_remark};
ghost use Rattle.std.specs.Prelude.{Some};

use leaf::Fault;
use texts::{Cursor, Line};

// A line of the batch that is not hexadecimal.
#[derive(Clone, Copy)]
pub(crate) struct MalformedLine {
    pub number: usize,
}

// A sheet that was refused: which it is, the line on which it stands, and what refused it.
#[derive(Clone, Copy)]
pub(crate) struct RefusedSheet {
    pub number: usize,
    pub line: usize,
    pub fault: Fault,
}

// Each prints as its remark, by hand as the lines of `texts`.
impl Line for MalformedLine {
    ghost text = { λ l. malformed_remark l.number };

    fn put(&self, out: &mut Cursor) {
        out.bytes(b"line ");
        out.decimal(self.number as u64);
        out.bytes(b": not hexadecimal\n");
    }
}

impl Line for RefusedSheet {
    ghost text = { λ s. refusal_remark s.number s.line (Some (shown s.fault)) };

    fn put(&self, out: &mut Cursor) {
        out.bytes(b"sheet ");
        out.decimal(self.number as u64);
        out.bytes(b" on line ");
        out.decimal(self.line as u64);
        out.bytes(b": ");
        // Read for its range alone: a byte's number has 20 digits at most, and so the remark has room.
        let _byte = self.fault.byte.unwrap_or(0);
        self.fault.put(out);
    }
}
