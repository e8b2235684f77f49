ghost use Rattle.std.specs.Prelude.{◌≡◌};
ghost use Rattle.leaf.specs.Kind.{admits as admitted};
ghost use Rattle.list.specs.Lists.{any};

use leaf::{Leaf, admits};

// Whether one of the leaves admits the value.
pub(crate) fn any_admits<V: Copy, L: Leaf<V>>(held: &[L], v: V) -> bool
    ensures { result ≡ any (λ x. admitted L.kind x v) held.now }
{
    for leaf in held {
        if admits(leaf, v) {
            return true;
        }
    }
    false
}
