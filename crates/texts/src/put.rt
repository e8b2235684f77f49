ghost use Rattle.std.specs.Prelude.{◌≡◌, ◌≤◌, [], ◌∷◌, length, decimal, nat_le};
ghost use Rattle.texts.specs.Text.{Wrote};

use itoa::Buffer;

/// The bytes of the shortest buffer for a line.
pub const ROOM: usize = 600;

// Whether a buffer of that size is long enough for a line.
pub fn has_room(size: usize) -> bool
    ensures { result ≡ nat_le 600 size }
{
    size >= ROOM
}

// Each function writes at `at`, as far as there is room, and answers where its text ends: public calls, which stay beside the cursor. By
// hand, not by Display: std says what a `write!` wrote where it answers Ok, but not that it answers Ok.
pub fn put_byte(buf: &mut [u8], at: usize, b: u8) -> usize
    ensures { Wrote buf.old at (b ∷ []) buf.new result }
{
    if at < buf.len() {
        buf[at] = b;
        at + 1
    } else {
        at
    }
}

pub fn put_bytes(buf: &mut [u8], at: usize, text: &[u8]) -> usize
    ensures { Wrote buf.old at text.now buf.new result }
{
    let start = at.min(buf.len());
    let count = text.len().min(buf.len() - start);
    buf[start..start + count].copy_from_slice(&text[..count]);
    at + count
}

// A number in decimal, which is no longer than 20 digits.
pub fn put_decimal(buf: &mut [u8], at: usize, n: u64) -> usize
    ensures wrote { Wrote buf.old at (decimal n) buf.new result }
    ensures short { length (decimal n) ≤ 20 }
{
    put_bytes(buf, at, Buffer::new().format(n).as_bytes())
}
