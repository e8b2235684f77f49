ghost use Rattle.std.specs.Prelude.{◌≡◌, ◌+◌, ◌<◌, ◌≤◌, length, take, drop};
ghost use Rattle.leaf.specs.Kind.{covers as covering};
ghost use Rattle.list.specs.Lists.{any, is_covered_by, kept};

use leaf::{Leaf, covers};

// Whether one of the lines covers the line.
fn any_covers<V: Copy, L: Leaf<V>>(lines: &[L], line: &L) -> bool
    ensures { result ≡ any (λ y. covering L.kind y line.now) lines.now }
{
    lines.iter().any(|other| covers(other, line))
}

// Whether another of the lines than the one at `i`, which is `line`, covers it.
fn is_covered<V: Copy, L: Leaf<V>>(lines: &[L], i: usize, line: &L) -> bool
    requires { i < length lines.now }
    ensures { result ≡ is_covered_by (covering L.kind) line.now (take i lines.now) (drop (i + 1) lines.now) }
{
    any_covers(&lines[..i], line) || any_covers(&lines[i + 1..], line)
}

// Drops each of the lines that another of them covers, and answers how many are left in front. Those dropped stand past the
// kept ones until the end, so that each is held against all the others: one index reads and one writes.
pub(crate) fn drop_covered<V: Copy, L: Leaf<V>>(lines: &mut [L]) -> usize
    ensures fewer { result ≤ length lines.old }
    ensures lines { take result lines.new ≡ kept (covering L.kind) lines.old }
{
    let mut w = 0;
    for r in 0..lines.len() {
        let line = lines[r];
        if !is_covered(lines, r, &line) {
            lines.swap(r, w);
            w += 1;
        }
    }
    w
}
