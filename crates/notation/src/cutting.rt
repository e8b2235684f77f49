// Text cut at a byte.
ghost use Rattle.notation.specs.Text.{index_of, split_at_first};
ghost use Rattle.std.specs.Option.{option_map};
ghost use Rattle.std.specs.Prelude.{◌≡◌, ◌+◌, ◌≤◌, ◌==◌, length, take, drop, position};

// The place of the first byte `c`, if there is one.
fn place(text: &[u8], c: u8) -> Option<usize>
    ensures { result ≡ position (λ b. b == c) text.now }
{
    text.iter().position(|b| *b == c)
}

// The place of the first byte `c`, or the length where there is none: a place that `front` and `behind` take.
pub fn find(text: &[u8], c: u8) -> usize
    ensures value { result ≡ index_of c text.now }
    ensures within { result ≤ length text.now }
{
    place(text, c).unwrap_or(text.len())
}

// The text before place `i`, all of it where `i` lies past its end.
pub fn front(text: &[u8], i: usize) -> &[u8]
    ensures { result.now ≡ take i text.now }
{
    let end = i.min(text.len());
    &text[..end]
}

// The text behind place `i`, empty where `i` lies past its end.
pub fn behind(text: &[u8], i: usize) -> &[u8]
    ensures { result.now ≡ drop (i + 1) text.now }
{
    let begin = i.saturating_add(1).min(text.len());
    &text[begin..]
}

// What stands before the first byte `c` and what stands behind it, if there is one.
pub fn split_once(text: &[u8], c: u8) -> Option<(&[u8], &[u8])>
    ensures { option_map (λ p. (p.0.now, p.1.now)) result ≡ split_at_first c text.now }
{
    let i = place(text, c)?;
    Some((&text[..i], &text[i + 1..]))
}
