ghost use Rattle.crate_answers.specs.Lines.{in_one_line, lines_outcome, printed_as};
ghost use Rattle.crate_answers.specs.Outcomes.{is_same};
ghost use Rattle.sheets.specs.Output.{is_of_days};
ghost use Rattle.std.specs.Prelude.{◌≡◌, IfOk, vec_items};

use hex_text::read_hex;
use sheets::print_sheet;
use std::alloc::{AllocError, Global};

// A text with a semicolon for each line feed.
fn in_one_line(heap: Global, text: &[u8]) -> Result<Vec<u8>, AllocError>
    ensures { IfOk result (λ v. vec_items v ≡ in_one_line text.now) }
{
    text.iter()
        .map(|b| if *b == b'\n' { b';' } else { *b })
        .collect(heap)
}

// Whether a sheet comes to these lines, and nothing of it is refused.
fn has_lines(heap: Global, sheet: &[u8], lines: &[u8]) -> Result<bool, AllocError>
    ensures { IfOk result (λ b. b ≡ printed_as (is_of_days sheet.now) sheet.now lines.now) }
{
    let printed = print_sheet(heap, sheet)?;
    if printed.answer.fault.is_some() {
        return Ok(false);
    }
    let text = in_one_line(heap, &printed.text)?;
    Ok(text.as_slice() == lines)
}

// Whether the sheet that a question writes comes to the lines of the answer.
pub(crate) fn are_same_lines(
    heap: Global,
    question: &[u8],
    answer: &[u8],
) -> Result<bool, AllocError>
    ensures { IfOk result (λ b. b ≡ is_same (lines_outcome question.now answer.now)) }
{
    match read_hex(heap, question)? {
        None => Ok(false),
        Some(sheet) => has_lines(heap, &sheet, answer),
    }
}
