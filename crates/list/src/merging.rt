ghost use Rattle.std.specs.Prelude.{◌≡◌, ◌≤◌, length, take};
ghost use Rattle.leaf.specs.Kind.{touches};
ghost use Rattle.list.specs.Lists.{joined};

use leaf::{Leaf, adjoins};

// Joins each of the records to the one before it, as joined so far, and answers how many are left in front.
// One index reads and one writes, since the records are compacted in their own places.
pub(crate) fn merge_held<V: Copy, L: Leaf<V>>(held: &mut [L]) -> usize
    ensures fewer { result ≤ length held.old }
    ensures lines { take result held.new ≡ joined (touches L.kind) L.kind.join held.old }
{
    if held.is_empty() {
        return 0;
    }
    let mut w = 0;
    for r in 1..held.len() {
        let (last, next) = (&held[w], &held[r]);
        if adjoins(last, next) {
            held[w] = last.join(next);
        } else {
            w += 1;
            held[w] = held[r];
        }
    }
    w + 1
}
