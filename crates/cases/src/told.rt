ghost use Rattle.cases.specs.Texts.{bytes_text, told_text};
ghost use Rattle.list.specs.Held.{stopped};
ghost use Rattle.std.specs.Prelude.{Some};

use list::SheetAnswer;
use std::fmt;

// Bytes in hexadecimal; a dash is none.
#[derive(Clone, Copy)]
pub(crate) struct Hex<'a>(pub &'a [u8]);

impl fmt::Display for Hex<'_> {
    ghost output = { λ h. Some (bytes_text h.0.now) };

    fn fmt<W: fmt::Write>(&self, f: &mut fmt::Formatter<W>) -> fmt::Result {
        if self.0.is_empty() {
            return write!(f, "-");
        }
        for b in self.0 {
            let n = *b;
            write!(f, "{n:02x}")?;
        }
        Ok(())
    }
}

// Leaves accepted, the start, and number, byte and layer of what refused the sheet.
#[derive(Clone, Copy)]
pub(crate) struct Told(pub SheetAnswer);

impl fmt::Display for Told {
    ghost output = { λ t. Some (told_text t.0.accepted t.0.start (stopped t.0.fault)) };

    fn fmt<W: fmt::Write>(&self, f: &mut fmt::Formatter<W>) -> fmt::Result {
        let SheetAnswer {
            accepted,
            start,
            fault,
        } = self.0;
        write!(f, "{accepted} {start} ")?;
        let Some(fault) = fault else {
            return write!(f, "- - -");
        };
        let number = fault.refusal.number();
        let layer = fault.layer;
        match fault.byte {
            Some(byte) => write!(f, "{number} {byte} {layer}"),
            None => write!(f, "{number} - {layer}"),
        }
    }
}
