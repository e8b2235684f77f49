ghost use Rattle.leaf.specs.Kind.{Lawful, ext_le, from};
ghost use Rattle.spans.specs.Closed.{closed, closed_on, is_shut, part_of};
ghost use Rattle.std.specs.Prelude.{◌≡◌, nat_le};
ghost use Rattle.spans.specs.Without.{closed_laws};

use leaf::{Fault, Leaf, Reader, Refusal};

// The day to leave out, if there is one: none comes first in the order.
#[derive(Clone, Copy, PartialEq, Eq, PartialOrd, Ord)]
struct Closing {
    day: Option<u32>,
}

/// A leaf of any kind at days without the closing day.
#[derive(Clone, Copy)]
pub struct Closed<L> {
    below: L,
    closing: Closing,
}

impl<L: Leaf<u32>> Closed<L> {
    /// The leaf below without a day, or as it is.
    pub fn new(below: L, day: Option<u32>) -> Closed<L>
        ensures value { result ≡ closed_on below day }
        ensures lawful { Lawful L.kind below → Lawful (closed L.kind) result }
    {
        Closed {
            below,
            closing: Closing { day },
        }
    }
}

impl Closing {
    fn shuts(self, v: u32) -> bool
        ensures { result ≡ is_shut self.day v }
    {
        self.day == Some(v)
    }

    fn is_at_most(self, other: Closing) -> bool
        ensures { result ≡ ext_le nat_le (from self.day) (from other.day) }
    {
        self <= other
    }

    // Whether the other leaves out what this one does.
    fn is_part_of(self, other: Closing) -> bool
        ensures { result ≡ part_of self.day other.day }
    {
        self.day.is_none_or(|day| other.shuts(day))
    }
}

// Leaves without a day are a kind, whatever the kind below. None stands on a sheet.
impl<L: Leaf<u32>> Leaf<u32> for Closed<L> {
    ghost kind = { closed L.Leaf.kind };

    fn blank() -> Closed<L> {
        Closed {
            below: L::blank(),
            closing: Closing { day: None },
        }
    }

    fn at_most(a: u32, b: u32) -> bool {
        L::at_most(a, b)
    }

    fn checked_increment(v: u32) -> Option<u32> {
        L::checked_increment(v)
    }

    fn minimum(&self) -> Option<u32> {
        self.below.minimum()
    }

    fn maximum(&self) -> Option<u32> {
        self.below.maximum()
    }

    fn rule_at_most(&self, other: &Closed<L>) -> bool {
        self.below.rule_at_most(&other.below)
            && (!other.below.rule_at_most(&self.below) || self.closing.is_at_most(other.closing))
    }

    fn rule_admits(&self, v: u32) -> bool {
        !self.closing.shuts(v) && self.below.rule_admits(v)
    }

    fn next_on_grid(&self, v: u32) -> Option<u32> {
        let next = self.below.next_on_grid(v)?;
        if self.closing.shuts(next) {
            return self.below.next_on_grid(next);
        }
        Some(next)
    }

    fn rule_covers(&self, other: &Closed<L>) -> bool {
        self.closing.is_part_of(other.closing) && self.below.rule_covers(&other.below)
    }

    fn join(&self, other: &Closed<L>) -> Closed<L> {
        Closed {
            below: self.below.join(&other.below),
            closing: self.closing,
        }
    }

    fn is_kind(_b: u8) -> bool {
        false
    }

    fn read_fields(reader: &mut Reader<'_>, _place: &mut Closed<L>) -> Result<(), Fault> {
        let start = reader.at();
        reader.byte()?;
        Err(Fault::at(Refusal::UnknownByte, start))
    }

    ghost lawfully = { closed_laws L.Leaf.kind L.Leaf.lawfully };
}
