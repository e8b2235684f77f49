ghost use Rattle.std.specs.Prelude.{◌≡◌, ◌<◌, ◌≤◌, ◌&&◌, ◌==◌, length, IfErr, IfOk};
ghost use Rattle.std.specs.Result.{is_err, result_err};
ghost use Rattle.faults.specs.Faults.{shown};
ghost use Rattle.list.specs.Encoded.{WrittenSheets};
ghost use Rattle.list.specs.Held.{LeadsOn, SameTable, Sound, TakesLeaf, Tells, TellsOf, held_of, seen_of};
ghost use Rattle.list.specs.Runs.Call.{sheet as call_sheet};
ghost use Rattle.list.specs.Seen.{answer_of, held_after, read_after};
ghost use Rattle.list.specs.Sheets.{StartsAt, TakesNone};
ghost use Rattle.list.specs.Taking.{Takes};

use crate::leaves::Leaves;
use leaf::{Fault, Leaf, Refusal};

/// The answer to a sheet.
#[derive(Clone, Copy, PartialEq, Eq)]
pub struct SheetAnswer {
    /// How many leaves were accepted.
    pub accepted: usize,
    /// The first byte after the last accepted leaf, else after the accepted kind, else 0.
    pub start: usize,
    /// What stopped the sheet; none where it was taken to its end.
    pub fault: Option<Fault>,
}

// The most bytes of a sheet.
const SHEET_LIMIT: usize = 32_768;

// Where the leaves of a sheet start, behind the byte of its kind; or why it has none.
fn first_leaf<V: Copy, L: Leaf<V>>(bytes: &[u8]) -> Result<usize, Fault>
    ensures start { IfOk result (λ at. at ≡ 1) }
    ensures begins { IfOk result (λ at. StartsAt L.kind bytes.now at) }
    ensures refuses { IfErr result (λ f. TakesNone L.kind bytes.now (shown f)) }
{
    if bytes.len() > SHEET_LIMIT {
        return Err(Fault::at(Refusal::TooLong, 0));
    }
    let [kind, ..] = bytes else {
        return Err(Fault::at(Refusal::EndsEarly, 0));
    };
    if !L::is_kind(*kind) {
        return Err(Fault::at(Refusal::UnknownByte, 0));
    }
    Ok(1)
}

impl<'a, V: Copy, L: Leaf<V>> Leaves<'a, V, L> {
    // Reads the leaf that starts at `at`, by way of the place lent, and puts it into its place; where it ends.
    fn take_leaf(&mut self, bytes: &[u8], at: usize, place: &mut L) -> Result<usize, Fault>
        ensures table { SameTable self.old self.new }
        ensures within { IfOk result (λ e. (at < e) × (e ≤ length bytes.now)) }
        ensures fills { TakesLeaf L.kind bytes.now at self.old self.new result }
        ensures flag { self.new.canonical ≡ (is_err result && self.old.canonical) }
    {
        let end = L::read(bytes, at, place)?;
        self.accept(*place, Some(at))?;
        Ok(end)
    }

    // Takes the leaves of a sheet in turn, up to its end or what stops it, into the answer lent: what was told before a
    // refusal stays told.
    fn feed(&mut self, bytes: &[u8], answer: &mut SheetAnswer) -> Result<(), Fault>
        requires { (answer.old.accepted ≡ 0) × (answer.old.start ≡ 0) }
        ensures table { SameTable self.old self.new }
        ensures answer { TellsOf L.kind bytes.now self.old (record answer.new { fault = result_err result }) }
        ensures held { held_of self.new ≡ held_after L.kind (seen_of self.old) (call_sheet bytes.now) }
        ensures flag { self.new.canonical ≡ ((answer.new.accepted == 0) && self.old.canonical) }
    {
        answer.start = first_leaf::<V, L>(bytes)?;
        let mut place = L::blank();
        // Where a leaf ends is known once it is read, so no iterator goes over them.
        while answer.start < bytes.len() {
            answer.start = self.take_leaf(bytes, answer.start, &mut place)?;
            answer.accepted += 1;
        }
        Ok(())
    }

    /// Inserts the leaves of a sheet in turn, each once it is read, up to the sheet's end or a refusal; a refused leaf
    /// changes nothing, and those before it stay. What stands in the table past the leaves held is free, and no answer
    /// depends on it.
    pub fn sheet(&mut self, bytes: &[u8]) -> SheetAnswer
        ensures table { SameTable self.old self.new }
        ensures takes { Takes L.kind bytes.now self.old self.new result }
        ensures answer { Tells result (answer_of L.kind (seen_of self.old) (call_sheet bytes.now)) }
        ensures held { held_of self.new ≡ held_after L.kind (seen_of self.old) (call_sheet bytes.now) }
        ensures read { self.new.canonical ≡ read_after L.kind (seen_of self.old) (call_sheet bytes.now) }
        ensures sound { Sound L.kind self.old → Sound L.kind self.new }
        ensures run { LeadsOn L.kind (call_sheet bytes.now) self.old self.new }
        ensures written { WrittenSheets L.kind }
    {
        let mut answer = SheetAnswer {
            accepted: 0,
            start: 0,
            fault: None,
        };
        answer.fault = self.feed(bytes, &mut answer).err();
        answer
    }
}
