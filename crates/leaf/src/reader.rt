ghost use Rattle.std.specs.Prelude.{◌≡◌, ◌-◌, drop, length, min, IfOk, OnErr};

use crate::numbers::number;
use crate::sheet::{are_flags, rest_of};
use faults::{Fault, Refusal};

/// A sheet that is read part by part: the reader takes the first byte of what is left and goes on with the rest.
#[derive(Clone, Copy)]
pub struct Reader<'a> {
    sheet: &'a [u8],
    rest: &'a [u8],
    ghost stands: { rest.now ≡ drop (length sheet.now - length rest.now) sheet.now },
}

impl<'a> Reader<'a> {
    ghost use Rattle.leaf.specs.Encoding.{IsEncoded, NumbersStand};
    ghost use Rattle.leaf.specs.Numbers.{number_at};
    ghost use Rattle.leaf.specs.Reading.{Reads, at_of, byte_at, left_of, sheet_of};
    ghost use Rattle.leaf.specs.Windows.{flags_at};

    /// From a byte of the sheet on; with nothing left where `start` lies past its end.
    pub fn new(sheet: &'a [u8], start: usize) -> Reader<'a>
        ensures sheet { sheet_of result ≡ sheet.now }
        ensures at { at_of result ≡ min start (length sheet.now) }
    {
        Reader {
            sheet,
            rest: rest_of(sheet, start),
        }
    }

    /// The place on the sheet of the byte that comes next.
    pub fn at(&self) -> usize
        ensures { result ≡ at_of self.now }
    {
        self.sheet.len() - self.rest.len()
    }

    /// The byte that stands here. A refusal leaves the reader as it was.
    pub fn byte(&mut self) -> Result<u8, Fault>
        ensures reads { Reads byte_at self.old self.new result }
        ensures kept { OnErr result (self.new ≡ self.old) }
    {
        let [byte, rest @ ..] = self.rest else {
            return Err(Fault::at(Refusal::EndsEarly, self.sheet.len()));
        };
        self.rest = rest;
        Ok(*byte)
    }

    /// The number that starts here. A refusal leaves the reader as it was.
    #[tactic(auto, using(crate::proofs::Beginnings::numbers_stand), unfolding(crate::specs::Numbers::number_at))]
    pub fn number(&mut self) -> Result<u64, Fault>
        ensures reads { Reads number_at self.old self.new result }
        ensures kept { OnErr result (self.new ≡ self.old) }
        ensures encoded { IfOk result (λ n. IsEncoded n (left_of self.old) (left_of self.new)) }
        ensures laws { NumbersStand }
    {
        let (n, size) = number(self.rest, self.at(), self.sheet.len())?;
        self.rest = &self.rest[size..];
        Ok(n)
    }

    /// The flags of a leaf that stand here; refused 4 at that byte.
    pub fn flags(&mut self, signed: bool) -> Result<u8, Fault>
        ensures { Reads (flags_at signed) self.old self.new result }
    {
        let start = self.at();
        let flags = self.byte()?;
        if !are_flags(flags, signed) {
            return Err(Fault::at(Refusal::UnknownByte, start));
        }
        Ok(flags)
    }
}
