ghost use Rattle.ask.specs.AmountTexts.{amount_bound_in, amount_in, value_in};
ghost use Rattle.std.specs.Prelude.{◌≡◌};

use amounts::WrittenAmount;
use notation::signed;
use questions::bound_of;

// The amount that a text writes.
fn amount_of(text: &[u8]) -> Option<WrittenAmount>
    ensures { result ≡ amount_in text.now }
{
    // By hand, not by From: neither type is this crate's.
    let n = signed(text)?;
    Some(WrittenAmount {
        magnitude: n.magnitude,
        negative: n.negative,
    })
}

// The bound that a text writes, absent where it is a star.
pub(crate) fn amount_bound_of(text: &[u8]) -> Option<Option<WrittenAmount>>
    ensures { result ≡ amount_bound_in text.now }
{
    bound_of(text, amount_of(text))
}

// The value that a text writes, if it is a 64-bit amount.
pub(crate) fn value_of(text: &[u8]) -> Option<i64>
    ensures { result ≡ value_in text.now }
{
    amount_of(text)?.value()
}
