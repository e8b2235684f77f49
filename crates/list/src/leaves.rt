ghost use Rattle.std.specs.Option.{is_some};
ghost use Rattle.std.specs.Prelude.{◌≡◌, ◌≤◌, true, List, [], length, take, unwrap_or};
ghost use Rattle.faults.specs.Faults.{refused_with};
ghost use Rattle.leaf.specs.Kind.{Lawful};
ghost use Rattle.list.specs.Lists.{All};
ghost use Rattle.list.specs.Runs.Call.{admits? as call_admits, count as call_count, empty? as call_empty, insert as call_insert, line as call_line};
ghost use Rattle.list.specs.Runs.{Call, Promises, reading};
ghost use Rattle.list.specs.Seen.{answer_of, held_after, read_after};
ghost use Rattle.list.specs.Sheets.{full_at, is_full};

use crate::dropping::drop_covered;
use crate::merging::merge_held;
use crate::placing::place;
use crate::questions::any_admits;
use leaf::{Fault, Leaf, Refusal};
use std::marker::PhantomData;

/// A list of leaves in a table that its caller lends. They stand in front in the table; what stands past them is free, and
/// no answer depends on it.
#[derive(Drop)]
pub struct Leaves<'a, V, L> {
    table: &'a mut [L],
    held: usize,
    // Nothing came since the last reading.
    canonical: bool,
    values: PhantomData<V>,
}

// Joins the leaves held in front in the table, then drops: what is left in front are the lines.
fn read_held<V: Copy, L: Leaf<V>>(table: &mut [L], held: usize) -> usize
    requires { held ≤ length table.old }
    ensures fewer { result ≤ held }
    ensures places { length table.new ≡ length table.old }
    ensures lines { take result table.new ≡ reading L.kind (take held table.old) }
{
    let merged = merge_held(&mut table[..held]);
    drop_covered(&mut table[..merged])
}

impl<'a, V: Copy, L: Leaf<V>> Leaves<'a, V, L> {
    ghost use Rattle.list.specs.Held.{FreePlacesUnseen, KeepsPromises, Leads, LeadsOn, PutsIn, SameTable, Settled, Sound, held_of, lines_of, places_of, seen_of};

    /// A list that holds no leaf: whatever the table has in it, all its places are free.
    pub fn open(table: &'a mut [L]) -> Leaves<'a, V, L>
        ensures table { (result.table.ghost_name ≡ table.entry.ghost_name) × (result.table.now ≡ table.old) }
        ensures held { held_of result ≡ [] }
        ensures sound { Sound L.kind result }
        ensures run { Leads L.kind [] result }
        ensures promises { Promises L.kind }
        ensures unseen { FreePlacesUnseen L.kind }
    {
        Leaves {
            table,
            held: 0,
            canonical: true,
            values: PhantomData,
        }
    }

    // Puts the leaf into its place; where the leaves held fill the table, refuses at the byte given and changes nothing.
    pub(crate) fn accept(&mut self, leaf: L, byte: Option<usize>) -> Result<(), Fault>
        ensures table { SameTable self.old self.new }
        ensures answer { refused_with result ≡ full_at byte (places_of self.old) (held_of self.old) }
        ensures full { is_full (places_of self.old) (held_of self.old) ≡ true → self.new ≡ self.old }
        ensures held { held_of self.new ≡ held_after L.kind (seen_of self.old) (call_insert leaf) }
        ensures read { self.new.canonical ≡ read_after L.kind (seen_of self.old) (call_insert leaf) }
    {
        if self.held >= self.table.len() {
            return Err(Fault::new(Refusal::TableFull, byte));
        }
        place(&mut self.table[..=self.held], leaf);
        self.held += 1;
        self.canonical = false;
        Ok(())
    }

    /// Puts the leaf into its place; refuses with 10, naming no byte, and changes nothing where the leaves held fill the
    /// table. What stands in the table past the leaves held is free, and no answer depends on it.
    pub fn insert(&mut self, leaf: L) -> Result<(), Fault>
        ensures table { SameTable self.old self.new }
        ensures answer { refused_with result ≡ answer_of L.kind (seen_of self.old) (call_insert leaf) }
        ensures full { is_full (places_of self.old) (held_of self.old) ≡ true → self.new ≡ self.old }
        ensures held { held_of self.new ≡ held_after L.kind (seen_of self.old) (call_insert leaf) }
        ensures read { self.new.canonical ≡ read_after L.kind (seen_of self.old) (call_insert leaf) }
        ensures place { PutsIn L.kind leaf self.old self.new }
        ensures sound { Sound L.kind self.old → Lawful L.kind leaf → Sound L.kind self.new }
        ensures run { Lawful L.kind leaf → LeadsOn L.kind (call_insert leaf) self.old self.new }
    {
        self.accept(leaf, None)
    }

    // How many leaves are held: the count, cut to the places of the table. So the type needs no invariant, and a caller's
    // function may take a list and use it up.
    fn held_count(&self) -> usize
        ensures within { result ≤ places_of self.now }
        ensures held { take result self.now.table.now ≡ held_of self.now }
    {
        self.held.min(self.table.len())
    }

    // What is held.
    fn leaves(&self) -> &[L]
        ensures { result.now ≡ held_of self.now }
    {
        &self.table[..self.held_count()]
    }

    /// Whether a leaf that is held admits the value.
    pub fn admits(&mut self, v: V) -> bool
        ensures same { self.new ≡ self.old }
        ensures answer { result ≡ answer_of L.kind (seen_of self.old) (call_admits v) }
        ensures run { LeadsOn L.kind (call_admits v) self.old self.new }
    {
        any_admits(self.leaves(), v)
    }

    /// Whether no leaf is held.
    pub fn is_empty(&mut self) -> bool
        ensures same { self.new ≡ self.old }
        ensures answer { result ≡ answer_of L.kind (seen_of self.old) call_empty }
        ensures run { LeadsOn L.kind call_empty self.old self.new }
    {
        self.held_count() == 0
    }

    // A reading, unless nothing came since the last.
    fn settle(&mut self)
        ensures table { SameTable self.old self.new }
        ensures held { held_of self.new ≡ lines_of L.kind self.old }
        ensures read { self.new.canonical ≡ true }
    {
        if !self.canonical {
            let held = self.held_count();
            self.held = read_held(self.table, held);
            self.canonical = true;
        }
    }

    /// How many lines there are. A reading, after which the lines are what is held; what was just read is not read again.
    /// What the reading left in the table past the lines is free, and no answer depends on it.
    pub fn count(&mut self) -> usize
        ensures table { SameTable self.old self.new }
        ensures answer { result ≡ answer_of L.kind (seen_of self.old) call_count }
        ensures within { result ≤ length self.new.table.now }
        ensures shown { take result self.new.table.now ≡ held_of self.new }
        ensures held { held_of self.new ≡ held_after L.kind (seen_of self.old) call_count }
        ensures lines { Settled L.kind self.old → held_of self.new ≡ reading L.kind (held_of self.old) }
        ensures read { self.new.canonical ≡ true }
        ensures sound { Sound L.kind self.old → Sound L.kind self.new }
        ensures run { LeadsOn L.kind call_count self.old self.new }
        ensures promises { KeepsPromises L.kind self.old self.new }
    {
        self.settle();
        self.held_count()
    }

    /// Line n, counted from 0, into the caller's place; false, and the place as it was, where n is at or past the count.
    /// A reading like `count`: what it left in the table past the lines is free, and no answer depends on it.
    pub fn line(&mut self, n: usize, place: &mut L) -> bool
        ensures table { SameTable self.old self.new }
        ensures answer { result ≡ is_some (answer_of L.kind (seen_of self.old) (call_line n)) }
        ensures filled { place.new ≡ unwrap_or (answer_of L.kind (seen_of self.old) (call_line n)) place.old }
        ensures lawful { All (Lawful L.kind) (held_of self.old) → result ≡ true → Lawful L.kind place.new }
        ensures held { held_of self.new ≡ held_after L.kind (seen_of self.old) (call_line n) }
        ensures lines { Settled L.kind self.old → held_of self.new ≡ reading L.kind (held_of self.old) }
        ensures read { self.new.canonical ≡ true }
        ensures sound { Sound L.kind self.old → Sound L.kind self.new }
        ensures run { LeadsOn L.kind (call_line n) self.old self.new }
        ensures promises { KeepsPromises L.kind self.old self.new }
    {
        if n >= self.count() {
            return false;
        }
        *place = self.table[n];
        true
    }
}
