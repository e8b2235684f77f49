ghost use Rattle.crate_answers.specs.Admissions.{Tells, admission_outcome, admitted_as, amount_in, yes_in};
ghost use Rattle.crate_answers.specs.Outcomes.{is_same};
ghost use Rattle.std.specs.Prelude.{◌≡◌, IfOk};

use amounts::{AmountLeaf, WrittenAmount};
use hex_text::read_hex;
use leaf::Leaf;
use list::Leaves;
use notation::{signed, split_once};
use std::alloc::{AllocError, Global};

// The amount that a text writes, if it is one of 64 bits.
fn amount_in(text: &[u8]) -> Option<i64>
    ensures { result ≡ amount_in text.now }
{
    let n = signed(text)?;
    let written = WrittenAmount {
        magnitude: n.magnitude,
        negative: n.negative,
    };
    written.value()
}

// Yes or no.
fn yes_in(text: &[u8]) -> Option<bool>
    ensures { result ≡ yes_in text.now }
{
    match text {
        b"yes" => Some(true),
        b"no" => Some(false),
        _ => None,
    }
}

// What a new list answers about a sheet and an amount.
#[derive(Clone, Copy)]
struct Asked {
    // Whether nothing of the sheet is refused.
    whole: bool,
    // Whether a leaf admits the amount, and whether a line does.
    by_leaf: bool,
    by_line: bool,
}

fn ask(sheet: &[u8], value: i64) -> Asked
    ensures { Tells sheet.now value result }
{
    let mut table = [AmountLeaf::blank(); 128];
    let mut list = Leaves::open(&mut table);
    let answer = list.sheet(sheet);
    let by_leaf = list.admits(value);
    let _ = list.count();
    Asked {
        whole: answer.fault.is_none(),
        by_leaf,
        by_line: list.admits(value),
    }
}

// Whether nothing of a sheet is refused, and its leaves admit an amount as is said, and likewise its lines.
fn is_admitted_as(sheet: &[u8], value: i64, said: bool) -> bool
    ensures { result ≡ admitted_as sheet.now value said }
{
    let asked = ask(sheet, value);
    asked.whole && asked.by_leaf == said && asked.by_line == said
}

// Whether the sheet that a question writes admits its amount as the answer says.
pub(crate) fn is_same_admission(
    heap: Global,
    question: &[u8],
    answer: &[u8],
) -> Result<bool, AllocError>
    ensures { IfOk result (λ b. b ≡ is_same (admission_outcome question.now answer.now)) }
{
    let Some((sheet, value)) = split_once(question, b' ') else {
        return Ok(false);
    };
    let Some(sheet) = read_hex(heap, sheet)? else {
        return Ok(false);
    };
    let Some(value) = amount_in(value) else {
        return Ok(false);
    };
    let Some(said) = yes_in(answer) else {
        return Ok(false);
    };
    Ok(is_admitted_as(&sheet, value, said))
}
