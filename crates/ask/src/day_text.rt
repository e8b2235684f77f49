ghost use Rattle.ask.specs.DayTexts.{date_bound_in, date_in, is_date_shape, weekdays_after, weekdays_in, with_weekday};
ghost use Rattle.std.specs.Prelude.{◌≡◌};

use days::Date;
use notation::number;
use questions::bound_of;

// Whether a text is ten bytes with a dash behind the fourth and the seventh.
fn is_date_shape(text: &[u8]) -> bool
    ensures { result ≡ is_date_shape text.now }
{
    matches!(text, [_, _, _, _, b'-', _, _, b'-', _, _])
}

// The date that a text writes, whether there is such a day or not.
pub(crate) fn date_of(text: &[u8]) -> Option<Date>
    ensures { result ≡ date_in text.now }
{
    if !is_date_shape(text) {
        return None;
    }
    let year = number(&text[..4])?;
    let month = number(&text[5..7])?;
    let day = number(&text[8..])?;
    Some(Date { year, month, day })
}

// The bound that a text writes, absent where it is a star.
pub(crate) fn date_bound_of(text: &[u8]) -> Option<Option<Date>>
    ensures { result ≡ date_bound_in text.now }
{
    bound_of(text, date_of(text))
}

// A weekday more, which comes behind all those of the set.
fn with_weekday(set: u64, b: u8) -> Option<u64>
    ensures { result ≡ with_weekday set b }
{
    let b'1'..=b'7' = b else {
        return None;
    };
    let day = 1u64 << (b - b'1');
    if set >= day {
        return None;
    }
    Some(set + day)
}

// The set of weekdays that ascending digits write.
fn digits(text: &[u8]) -> Option<u64>
    ensures { result ≡ weekdays_after 0 text.now }
{
    text.iter().try_fold(0, |set, b| with_weekday(set, *b))
}

// The set of weekdays that a text writes; a dash is none.
pub(crate) fn weekdays_of(text: &[u8]) -> Option<u64>
    ensures { result ≡ weekdays_in text.now }
{
    match text {
        [] => None,
        [b'-'] => Some(0),
        _ => digits(text),
    }
}
