ghost use Rattle.days.specs.Days.{days};
ghost use Rattle.days.specs.Grammar.{DayRefusals};
ghost use Rattle.days.specs.Meaning.{WrittenMeans};
ghost use Rattle.leaf.specs.Kind.{leaf_at};
ghost use Rattle.leaf.specs.Reading.{ReadsInto, at_of, sheet_of};
ghost use Rattle.days.specs.Shows.{days_laws};

use crate::calendar::LAST_DAY;
use crate::day_leaf::DayLeaf;
use crate::reader::read_leaf;
use crate::weekdays::{holds_set, is_in_set, next_in_set};
use leaf::{Bounds, Fault, Leaf, Reader};

// The first byte of a sheet of days.
const KIND: u8 = 0x44;

// Every weekday.
const ALL: u8 = 127;

// Day leaves are a kind.
impl Leaf<u32> for DayLeaf {
    ghost kind = { days };

    fn blank() -> DayLeaf {
        DayLeaf {
            bounds: Bounds {
                minimum: None,
                maximum: None,
            },
            weekdays: ALL,
        }
    }

    fn at_most(a: u32, b: u32) -> bool {
        a <= b
    }

    fn checked_increment(v: u32) -> Option<u32> {
        if v < LAST_DAY { Some(v + 1) } else { None }
    }

    fn minimum(&self) -> Option<u32> {
        self.bounds.minimum
    }

    fn maximum(&self) -> Option<u32> {
        self.bounds.maximum
    }

    fn rule_at_most(&self, other: &DayLeaf) -> bool {
        self.weekdays <= other.weekdays
    }

    fn rule_admits(&self, v: u32) -> bool {
        is_in_set(self.weekdays, v)
    }

    fn next_on_grid(&self, v: u32) -> Option<u32> {
        next_in_set(self.weekdays, v)
    }

    fn rule_covers(&self, other: &DayLeaf) -> bool {
        holds_set(self.weekdays, other.weekdays)
    }

    fn join(&self, other: &DayLeaf) -> DayLeaf {
        DayLeaf {
            bounds: self.bounds.hull(other.bounds),
            weekdays: self.weekdays,
        }
    }

    fn is_kind(b: u8) -> bool {
        b == KIND
    }

    #[tactic(auto, using(crate::specs::Means::written_means))]
    fn read_fields(reader: &mut Reader<'_>, place: &mut DayLeaf) -> Result<(), Fault>
        ensures reads { ReadsInto (leaf_at days) reader.old reader.new place.old place.new result }
        ensures means { WrittenMeans }
    {
        *place = read_leaf(reader)?;
        Ok(())
    }

    ghost lawfully = { days_laws };
}
