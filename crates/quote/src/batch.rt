ghost use Rattle.list.specs.Held.{stopped};
ghost use Rattle.quote.specs.Batch.{batch_lines, bytes_in, line_with};
ghost use Rattle.quote.specs.Quotation.{malformed_remark, refusal_remark};
ghost use Rattle.quote.specs.Taking.{Completes, Follows, Holds, SameNotes, Stands, Tells, one_more_if, sum_to};
ghost use Rattle.std.specs.Option.{option_map};
ghost use Rattle.std.specs.Prelude.{◌≡◌, ℕ, ◌<◌, ◌^◌, List, [], ◌∷◌, ◌++◌, length, IfOk, OnErr, OnOk, vec_items};

use crate::remark::{MalformedLine, RefusedSheet};
use amounts::AmountLeaf;
use days::DayLeaf;
use hex_text::read_hex;
use list::{Leaves, SheetAnswer};
use notation::{Lines, find, front};
use sheets::is_of_days;
use std::alloc::{AllocError, Global};
use texts::append_line;

// How much of a batch was taken, and what there is to remark.
#[derive(Drop)]
pub(crate) struct Taken {
    pub sheets: usize,
    pub accepted: usize,
    pub refused: usize,
    pub malformed: usize,
    pub remarks: Vec<u8>,
}

impl Taken {
    fn nothing(heap: Global) -> Taken
        ensures counts { (result.sheets ≡ 0) × (result.accepted ≡ 0) × (result.refused ≡ 0) × (result.malformed ≡ 0) }
        ensures remarks { vec_items result.remarks ≡ [] }
    {
        Taken {
            sheets: 0,
            accepted: 0,
            refused: 0,
            malformed: 0,
            remarks: Vec::new(heap),
        }
    }

    // Counts line `k`, which is not hexadecimal.
    fn note_malformed(&mut self, k: usize) -> Result<(), AllocError>
        ensures counts { OnOk result (self.new ≡ record self.old { malformed = sum_to self.old.malformed 1; remarks = self.new.remarks }) }
        ensures remarks { OnOk result (vec_items self.new.remarks ≡ vec_items self.old.remarks ++ malformed_remark k) }
        ensures err { OnErr result (SameNotes self.old self.new) }
    {
        append_line(&mut self.remarks, &MalformedLine { number: k })?;
        self.malformed = self.malformed.saturating_add(1);
        Ok(())
    }

    // Counts the sheet of line `k`, and remarks what refused it.
    fn note_sheet(&mut self, k: usize, answer: SheetAnswer) -> Result<(), AllocError>
        ensures sheets { OnOk result (self.new.sheets ≡ sum_to self.old.sheets 1) }
        ensures accepted { OnOk result (self.new.accepted ≡ sum_to self.old.accepted answer.accepted) }
        ensures refused { OnOk result (self.new.refused ≡ one_more_if (stopped answer.fault) self.old.refused) }
        ensures malformed { OnOk result (self.new.malformed ≡ self.old.malformed) }
        ensures remarks { OnOk result (vec_items self.new.remarks ≡ vec_items self.old.remarks ++ refusal_remark self.new.sheets k (stopped answer.fault)) }
        ensures err { OnErr result (SameNotes self.old self.new) }
    {
        let sheet = self.sheets.saturating_add(1);
        if let Some(fault) = answer.fault {
            let refused = RefusedSheet {
                number: sheet,
                line: k,
                fault,
            };
            append_line(&mut self.remarks, &refused)?;
            self.refused = self.refused.saturating_add(1);
        }
        self.sheets = sheet;
        self.accepted = self.accepted.saturating_add(answer.accepted);
        Ok(())
    }
}

// The bytes that a line of the batch writes, if it writes bytes; `#` begins a comment.
fn bytes_in(heap: Global, line: &[u8]) -> Result<Option<Vec<u8>>, AllocError>
    ensures { IfOk result (λ o. option_map vec_items o ≡ bytes_in line.now) }
{
    read_hex(heap, front(line, find(line, b'#')))
}

// Takes a sheet into the list of its kind; what does not begin as a sheet of days goes to the amounts.
fn take_sheet(
    sheet: &[u8],
    amounts: &mut Leaves<'_, i64, AmountLeaf>,
    days: &mut Leaves<'_, u32, DayLeaf>,
) -> SheetAnswer
    ensures lists { (before : List (List ℕ)) → Holds before amounts.old days.old → Holds (before ++ sheet.now ∷ []) amounts.new days.new }
    ensures answer { (before : List (List ℕ)) → Holds before amounts.old days.old → Tells before sheet.now result }
{
    if is_of_days(sheet) {
        days.sheet(sheet)
    } else {
        amounts.sheet(sheet)
    }
}

// Takes line `k` of a batch.
fn take_line(
    heap: Global,
    k: usize,
    line: &[u8],
    amounts: &mut Leaves<'_, i64, AmountLeaf>,
    days: &mut Leaves<'_, u32, DayLeaf>,
    taken: &mut Taken,
) -> Result<(), AllocError>
    ensures follows { (before : List (List ℕ)) → Stands before taken.old amounts.old days.old → length before < 2 ^ 63
        → OnOk result (Follows before k (line_with (bytes_in line.now)) taken.old taken.new amounts.new days.new) }
    ensures err { OnErr result (SameNotes taken.old taken.new) }
{
    match bytes_in(heap, line)? {
        None => taken.note_malformed(k),
        Some(sheet) if sheet.is_empty() => Ok(()),
        Some(sheet) => {
            let answer = take_sheet(&sheet, amounts, days);
            taken.note_sheet(k, answer)
        }
    }
}

// Takes the sheets of a batch, each into the list of its kind.
pub(crate) fn take_batch(
    heap: Global,
    batch: &[u8],
    amounts: &mut Leaves<'_, i64, AmountLeaf>,
    days: &mut Leaves<'_, u32, DayLeaf>,
) -> Result<Taken, AllocError>
    requires { Holds [] amounts.old days.old }
    ensures { IfOk result (λ t. Completes (batch_lines batch.now) t amounts.new days.new) }
{
    let mut taken = Taken::nothing(heap);
    for (k, line) in (1usize..).zip(Lines::of(batch)) {
        take_line(heap, k, line, amounts, days, &mut taken)?;
    }
    Ok(taken)
}
