ghost use Rattle.ask.specs.Lines.{asks_amounts, line_outcome};
ghost use Rattle.questions.specs.Outcomes.{said};
ghost use Rattle.std.specs.Prelude.{◌≡◌, false, IfSome, Some};

use crate::amount_line::{AmountFields, ask_amount};
use crate::day_line::{DayFields, ask_day};
use crate::wrong::Wrong;
use notation::split_once;
use questions::Objection;
use std::alloc::Global;

// What a line comes to: four fields with one space between ask about days, more about amounts. Only a question about amounts
// takes memory.
pub(crate) fn ask_line(heap: Global, line: &[u8]) -> Result<bool, Objection<Wrong>>
    ensures outcome { IfSome (said result) (λ o. o ≡ line_outcome line.now) }
    ensures told { asks_amounts line.now ≡ false → said result ≡ Some (line_outcome line.now) }
{
    let (minimum, line) = split_once(line, b' ').ok_or(Wrong::Fields)?;
    let (maximum, line) = split_once(line, b' ').ok_or(Wrong::Fields)?;
    let (third, line) = split_once(line, b' ').ok_or(Wrong::Fields)?;
    match split_once(line, b' ') {
        None => ask_day(&DayFields {
            minimum,
            maximum,
            weekdays: third,
            value: line,
        }),
        Some((barred, value)) => ask_amount(
            heap,
            &AmountFields {
                minimum,
                maximum,
                required: third,
                barred,
                value,
            },
        ),
    }
}
