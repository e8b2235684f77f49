ghost use Rattle.leaf.specs.Kind.{ext_le, from, is_window_of, upto, value};
ghost use Rattle.leaf.specs.Windows.{hull_of};
ghost use Rattle.std.specs.Ordering.{partial_le};
ghost use Rattle.std.specs.Prelude.{◌≡◌, ◌&&◌};

use crate::kind::Leaf;

// A window of values: an absent minimum is lowest, an absent maximum is highest.
#[derive(Clone, Copy)]
pub struct Bounds<V> {
    pub minimum: Option<V>,
    pub maximum: Option<V>,
}

impl<V: Copy + PartialOrd> Bounds<V> {
    // Whether the minimum is at most the maximum, where both are there.
    pub fn is_window(self) -> bool
        ensures { result ≡ is_window_of (partial_le V.partial_cmp) self.minimum self.maximum }
    {
        self.minimum
            .zip(self.maximum)
            .is_none_or(|(low, high)| low <= high)
    }

    /// The lower minimum and the higher maximum of two windows.
    pub fn hull(self, other: Bounds<V>) -> Bounds<V>
        ensures { result ≡ hull_of (partial_le V.partial_cmp) self other }
    {
        Bounds {
            minimum: self
                .minimum
                .zip(other.minimum)
                .map(|(a, b)| if a <= b { a } else { b }),
            maximum: self
                .maximum
                .zip(other.maximum)
                .map(|(a, b)| if a <= b { b } else { a }),
        }
    }
}

// Of two minimums, an absent one being lowest. Not one function with `is_high`: a closure that turns the order would be longer.
pub(crate) fn is_low<V: Copy, L: Leaf<V>>(a: Option<V>, b: Option<V>) -> bool
    ensures { result ≡ ext_le L.kind.le (from a) (from b) }
{
    a.is_none_or(|x| b.is_some_and(|y| L::at_most(x, y)))
}

// Of two maximums, an absent one being highest.
pub(crate) fn is_high<V: Copy, L: Leaf<V>>(a: Option<V>, b: Option<V>) -> bool
    ensures { result ≡ ext_le L.kind.le (upto a) (upto b) }
{
    b.is_none_or(|y| a.is_some_and(|x| L::at_most(x, y)))
}

// Whether a value lies in the window.
pub fn contains<V: Copy, L: Leaf<V>>(bounds: Bounds<V>, v: V) -> bool
    ensures { result ≡ (ext_le L.kind.le (from bounds.minimum) (value v) && ext_le L.kind.le (value v) (upto bounds.maximum)) }
{
    is_low::<V, L>(bounds.minimum, Some(v)) && is_high::<V, L>(Some(v), bounds.maximum)
}

// Whether the window includes another: an absent bound is included only by an absent one.
pub fn includes<V: Copy, L: Leaf<V>>(outer: Bounds<V>, inner: Bounds<V>) -> bool
    ensures { result ≡ (ext_le L.kind.le (from outer.minimum) (from inner.minimum) && ext_le L.kind.le (upto inner.maximum) (upto outer.maximum)) }
{
    is_low::<V, L>(outer.minimum, inner.minimum) && is_high::<V, L>(inner.maximum, outer.maximum)
}
