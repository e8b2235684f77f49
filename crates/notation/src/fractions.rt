// Divisors as text: `p` or `p/q` in decimal, commas between divisors, `-` for an empty list.
ghost use Rattle.notation.specs.Text.{divisor_of, divisors_of, listed, pieces};
ghost use Rattle.std.specs.Option.{option_map};
ghost use Rattle.std.specs.Prelude.{◌≡◌, map, IfOk, vec_items};

use crate::cutting::split_once;
use crate::numbers::number;
use divisors::Fraction;
use std::alloc::{AllocError, Global};

// The divisor that a text writes, if it writes one.
pub fn divisor(text: &[u8]) -> Option<Fraction>
    ensures { result ≡ divisor_of text.now }
{
    match split_once(text, b'/') {
        Some((p, q)) => Some(Fraction {
            p: number(p)?,
            q: number(q)?,
        }),
        None => Some(Fraction {
            p: number(text)?,
            q: 1,
        }),
    }
}

// The divisors that a text writes, if it writes such a list.
pub fn divisors(heap: Global, text: &[u8]) -> Result<Option<Vec<Fraction>>, AllocError>
    ensures { IfOk result (λ o. option_map vec_items o ≡ divisors_of text.now) }
{
    match text {
        [b'-'] => Ok(Some(Vec::new(heap))),
        _ => between_commas(heap, text),
    }
}

// Divisors with commas between them, if each part is one.
fn between_commas(heap: Global, text: &[u8]) -> Result<Option<Vec<Fraction>>, AllocError>
    ensures { IfOk result (λ o. option_map vec_items o ≡ listed (map divisor_of (pieces 44 text.now))) }
{
    let mut list = Vec::new(heap);
    for part in text.split(|b| *b == b',') {
        let Some(f) = divisor(part) else {
            return Ok(None);
        };
        list.push(f)?;
    }
    Ok(Some(list))
}
