ghost use Rattle.std.specs.Prelude.{◌≡◌, ◌≤◌, [], ◌∷◌, length, decimal};
ghost use Rattle.texts.specs.Cursors.{Put};

use crate::put::{put_byte, put_bytes, put_decimal};

// A buffer, and where the next text goes.
#[derive(Drop)]
pub struct Cursor<'a> {
    pub(crate) buf: &'a mut [u8],
    pub(crate) at: usize,
}

// Each method writes as far as there is room.
impl Cursor<'_> {
    pub fn byte(&mut self, b: u8)
        ensures { Put self.old (b ∷ []) self.new }
    {
        self.at = put_byte(self.buf, self.at, b);
    }

    pub fn bytes(&mut self, text: &[u8])
        ensures { Put self.old text.now self.new }
    {
        self.at = put_bytes(self.buf, self.at, text);
    }

    // A number in decimal, which is no longer than 20 digits.
    pub fn decimal(&mut self, n: u64)
        ensures put { Put self.old (decimal n) self.new }
        ensures short { length (decimal n) ≤ 20 }
    {
        self.at = put_decimal(self.buf, self.at, n);
    }
}
