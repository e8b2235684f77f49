ghost use Rattle.std.specs.Prelude.{◌≡◌, ◌-◌, ◌<◌, ◌≤◌, length, take};
ghost use Rattle.leaf.specs.Kind.{before};
ghost use Rattle.list.specs.Lists.{inserted};
ghost use Rattle.std.specs.List.{insert as put_at};

use leaf::{Leaf, no_later};

// The place behind the last leaf that is no later, looked for from the back: a leaf that comes in order is placed at once.
fn find_place<V: Copy, L: Leaf<V>>(held: &[L], leaf: &L) -> usize
    ensures within { result ≤ length held.now }
    ensures place { inserted (before L.kind) leaf.now held.now ≡ put_at held.now result leaf.now }
{
    match held.iter().rposition(|other| no_later(other, leaf)) {
        Some(last) => last + 1,
        None => 0,
    }
}

// Puts the leaf into its place among those before the last place, which is free: those behind it move one place up.
pub(crate) fn place<V: Copy, L: Leaf<V>>(table: &mut [L], leaf: L)
    requires { 0 < length table.old }
    ensures { table.new ≡ inserted (before L.kind) leaf (take (length table.old - 1) table.old) }
{
    let free = table.len() - 1;
    let at = find_place(&table[..free], &leaf);
    table.copy_within(at..free, at + 1);
    table[at] = leaf;
}
