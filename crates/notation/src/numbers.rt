// Decimal numbers as text.
ghost use Rattle.notation.specs.Text.{number_of, digits_after, signed_of, with_digit};
ghost use Rattle.std.specs.Prelude.{◌≡◌};

// One digit more, or nothing where the byte is no digit.
fn with_digit(n: u64, b: u8) -> Option<u64>
    ensures { result ≡ with_digit n b }
{
    match b {
        b'0'..=b'9' => Some(n.saturating_mul(10).saturating_add(u64::from(b - b'0'))),
        _ => None,
    }
}

// The digits behind those that write `n`.
fn digits_after(n: u64, text: &[u8]) -> Option<u64>
    ensures { result ≡ digits_after n text.now }
{
    text.iter().try_fold(n, |n, b| with_digit(n, *b))
}

// The number that decimal digits write, or 2^64 - 1 where it is larger; nothing where the text is no row of digits.
pub fn number(text: &[u8]) -> Option<u64>
    ensures { result ≡ number_of text.now }
{
    match text {
        [] => None,
        _ => digits_after(0, text),
    }
}

// A number with a sign: `-` before the digits, or nothing.
#[derive(Clone, Copy)]
pub struct SignedNumber {
    pub negative: bool,
    pub magnitude: u64,
}

// The number with a sign that a text writes, if it writes one.
pub fn signed(text: &[u8]) -> Option<SignedNumber>
    ensures { result ≡ signed_of text.now }
{
    let (negative, digits) = match text {
        [b'-', digits @ ..] => (true, digits),
        _ => (false, text),
    };
    let magnitude = number(digits)?;
    Some(SignedNumber {
        negative,
        magnitude,
    })
}
