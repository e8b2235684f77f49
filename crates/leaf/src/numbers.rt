ghost use Rattle.std.specs.Prelude.{◌≡◌, ◌<◌, ◌≤◌, length, IfOk};
ghost use Rattle.faults.specs.Faults.{seen};
ghost use Rattle.leaf.specs.Encoding.{Bytes};
ghost use Rattle.leaf.specs.Numbers.{groups_of, judged, moved};

use faults::{Fault, Refusal};

// The most bytes of a number.
const MOST: u32 = 10;

// The number at the front of `rest`, and how many bytes it has; both places are of the sheet, whose end `rest` reaches.
pub(crate) fn number(rest: &[u8], start: usize, end: usize) -> Result<(u64, usize), Fault>
    ensures bytes { Bytes rest.now }
    ensures within { IfOk result (λ p. (0 < p.1) × (p.1 ≤ length rest.now)) }
    ensures reads { moved start (seen result) ≡ judged end start (groups_of 10 rest.now) }
{
    // Most numbers are of one byte.
    if let [first @ ..0x80, ..] = rest {
        return Ok((u64::from(*first), 1));
    }
    groups(rest, MOST, start, end)
}

// The value of the groups at the front of `rest`, at most `left` of them, and how many they are.
fn groups(rest: &[u8], left: u32, start: usize, end: usize) -> Result<(u64, usize), Fault>
    requires { 0 < left }
    ensures within { IfOk result (λ p. (0 < p.1) × (p.1 ≤ length rest.now)) }
    ensures reads { moved start (seen result) ≡ judged end start (groups_of left rest.now) }
{
    let [first, tail @ ..] = rest else {
        return Err(Fault::at(Refusal::EndsEarly, end));
    };
    if *first < 0x80 {
        return Ok((u64::from(*first), 1));
    }
    let bad = Fault::at(Refusal::BadNumber, start);
    if left == 1 {
        return Err(bad);
    }
    let (high, used) = groups(tail, left - 1, start, end)?;
    if high == 0 || high >> 57 != 0 {
        return Err(bad);
    }
    Ok((high << 7 | u64::from(*first & 0x7f), used + 1))
}
