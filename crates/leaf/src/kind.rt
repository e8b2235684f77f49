ghost use Rattle.faults.specs.Faults.{Fills};
ghost use Rattle.leaf.specs.Grammar.{AnswersStand, LeafGrammar, ReadMeans};
ghost use Rattle.leaf.specs.Kind.{Kind, Lawful, Laws, before, leaf_at, touches};
ghost use Rattle.leaf.specs.Kind.{admits as admitted, covers as covering};
ghost use Rattle.leaf.specs.Reading.{ReadsInto};
ghost use Rattle.std.specs.Prelude.{◌≡◌, ◌<◌, ◌≤◌, length, IfOk, OnOk};

use crate::bounds::{Bounds, contains, includes, is_low};
use crate::reader::Reader;
use faults::Fault;

// A kind of leaf over the values V. Each question answers for every leaf, lawful or not; the laws are of lawful ones.
pub trait Leaf<V: Copy>: Copy {
    ghost kind: { Kind V Self };

    /// Some lawful leaf, to fill the places of a table with.
    fn blank() -> Self
        ensures { result ≡ kind.blank };

    // The order of the values.
    fn at_most(a: V, b: V) -> bool
        ensures { result ≡ kind.le a b };

    // The least value above, absent at the top.
    fn checked_increment(v: V) -> Option<V>
        ensures { result ≡ kind.succ v };

    fn minimum(&self) -> Option<V>
        ensures { result ≡ kind.minimum self.now };

    fn maximum(&self) -> Option<V>
        ensures { result ≡ kind.maximum self.now };

    // The order of the rules.
    fn rule_at_most(&self, other: &Self) -> bool
        ensures { result ≡ kind.rule_le self.now other.now };

    // Whether the rule admits a value.
    fn rule_admits(&self, v: V) -> bool
        ensures { result ≡ kind.rule_admits self.now v };

    // The least value of the rule's grid strictly above, absent if there is none.
    fn next_on_grid(&self, v: V) -> Option<V>
        ensures { result ≡ kind.next_on_grid self.now v };

    // Whether the rule covers the other's.
    fn rule_covers(&self, other: &Self) -> bool
        ensures { result ≡ kind.rule_covers self.now other.now };

    /// One leaf for two: this one's rule, the lower minimum and the higher maximum.
    fn join(&self, other: &Self) -> Self
        ensures { result ≡ kind.join self.now other.now };

    // Whether a sheet of this kind may begin with that byte.
    fn is_kind(b: u8) -> bool
        ensures { result ≡ kind.kind_byte b };

    /// The leaf whose first byte the reader stands at, into the place lent, which a refusal leaves as it was.
    fn read_fields(reader: &mut Reader<'_>, place: &mut Self) -> Result<(), Fault>
        ensures { ReadsInto (leaf_at kind) reader.old reader.new place.old place.new result };

    /// The leaf that starts at a byte of a sheet, into the place lent, which a refusal leaves as it was; the answer
    /// is where it ends.
    final fn read(sheet: &[u8], start: usize, place: &mut Self) -> Result<usize, Fault>
        ensures reads { Fills (leaf_at kind sheet.now start) place.old place.new result }
        ensures judged { AnswersStand kind sheet.now start }
        ensures grammar { LeafGrammar kind }
        ensures means { ReadMeans kind }
        ensures refusals { kind.Refusals sheet.now }
        ensures within { IfOk result (λ end. (start < end) × (end ≤ length sheet.now)) }
        ensures lawful { OnOk result (Lawful kind place.new) }
    {
        let mut reader = Reader::new(sheet, start);
        Self::read_fields(&mut reader, place)?;
        Ok(reader.at())
    }

    ghost lawfully: { Laws kind };
}

// The leaf's window.
pub fn bounds_of<V: Copy, L: Leaf<V>>(leaf: &L) -> Bounds<V>
    ensures low { result.minimum ≡ L.kind.minimum leaf.now }
    ensures high { result.maximum ≡ L.kind.maximum leaf.now }
{
    Bounds {
        minimum: leaf.minimum(),
        maximum: leaf.maximum(),
    }
}

// Whether the leaf's window holds the value and its rule admits it.
pub fn admits<V: Copy, L: Leaf<V>>(leaf: &L, v: V) -> bool
    ensures { result ≡ admitted L.kind leaf.now v }
{
    contains::<V, L>(bounds_of(leaf), v) && leaf.rule_admits(v)
}

// Whether a stands no later than b: by rule, then minimum. Of two leaves of one rule in order the rules are compared once.
pub fn no_later<V: Copy, L: Leaf<V>>(a: &L, b: &L) -> bool
    ensures { result ≡ before L.kind a.now b.now }
{
    a.rule_at_most(b) && (is_low::<V, L>(a.minimum(), b.minimum()) || !b.rule_at_most(a))
}

// Whether a leaf joins the one before it: the rules tie, and no value of their grid lies strictly between.
pub fn adjoins<V: Copy, L: Leaf<V>>(earlier: &L, later: &L) -> bool
    ensures { result ≡ touches L.kind earlier.now later.now }
{
    let ties = earlier.rule_at_most(later) && later.rule_at_most(earlier);
    ties && match (earlier.maximum(), later.minimum()) {
        (Some(high), Some(low)) => earlier
            .next_on_grid(high)
            .is_none_or(|next| L::at_most(low, next)),
        _ => true,
    }
}

// Whether a's window includes b's and its rule covers b's; the windows are looked at first.
pub fn covers<V: Copy, L: Leaf<V>>(a: &L, b: &L) -> bool
    ensures { result ≡ covering L.kind a.now b.now }
{
    includes::<V, L>(bounds_of(a), bounds_of(b)) && a.rule_covers(b)
}
