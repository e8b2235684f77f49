ghost use Rattle.leaf.specs.Numbers.{are_flags, has_bit};
ghost use Rattle.std.specs.Prelude.{◌≡◌, ◌+◌, drop, length, min};

/// The caller's own bytes from `start` to the end of the sheet, none where `start` lies past it.
pub fn rest_of<'a>(sheet: &'a [u8], start: usize) -> &'a [u8]
    ensures bytes { result.now ≡ drop start sheet.now }
    ensures part { result.ref_ptr ≡ (sheet.entry.ref_ptr.0, sheet.entry.ref_ptr.1 + min start (length sheet.now)) }
{
    let at = start.min(sheet.len());
    &sheet[at..]
}

/// Whether a bit of a byte is set, bit 0 being the lowest.
pub fn has_flag(flags: u8, bit: u32) -> bool
    ensures { result ≡ has_bit flags bit }
{
    bit < 8 && (flags >> bit) & 1 == 1
}

/// Whether a byte is the flags of a leaf: bit 0 minimum present, bit 1 maximum present, and where bounds have signs bit 2
/// minimum negative, bit 3 maximum negative; no other bit, and no sign without its bound.
pub fn are_flags(flags: u8, signed: bool) -> bool
    ensures { result ≡ are_flags signed flags }
{
    flags < if signed { 16 } else { 4 }
        && (has_flag(flags, 0) || !has_flag(flags, 2))
        && (has_flag(flags, 1) || !has_flag(flags, 3))
}
