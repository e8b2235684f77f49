// Users of the list: what is promised of every run holds of a table of one's own, and a list can be handed over.
#![tactic(auto)]

ghost use Rattle.leaf.specs.Kind.{Lawful};
ghost use Rattle.list.specs.Held.{lines_of as lines};
ghost use Rattle.list.specs.Runs.{Promised};
ghost use Rattle.list.specs.Runs.Call.{insert, sheet};
ghost use Rattle.std.specs.Prelude.{length, take, [], ◌∷◌, ◌≡◌};

use leaf::Leaf;
use list::Leaves;

// Opens a list in the caller's table, inserts a leaf, takes a sheet and counts: the lines stand in front in the table, and the places past them are free.
pub fn lines_of<V: Copy, L: Leaf<V>>(table: &mut [L], leaf: L, bytes: &[u8]) -> usize
    ensures { Lawful L.kind leaf → Promised L.kind (length table.old) (insert leaf ∷ sheet bytes.now ∷ []) (take result table.new) }
{
    let mut list = Leaves::open(table);
    let _ = list.insert(leaf);
    let _ = list.sheet(bytes);
    list.count()
}

/// How many lines a list has that is handed over for good.
pub fn count_of<V: Copy, L: Leaf<V>>(list: Leaves<'_, V, L>) -> usize
    ensures { result ≡ length (lines L.kind list.entry) }
{
    let mut list = list;
    list.count()
}
