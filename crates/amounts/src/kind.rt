ghost use Rattle.amounts.specs.Amounts.{amounts};
ghost use Rattle.amounts.specs.Grammar.{AmountRefusals};
ghost use Rattle.amounts.specs.Meaning.{WrittenMeans};
ghost use Rattle.leaf.specs.Kind.{leaf_at};
ghost use Rattle.leaf.specs.Reading.{ReadsInto, at_of, sheet_of};
ghost use Rattle.amounts.specs.Shows.{amounts_laws};

use crate::amount_leaf::{AmountLeaf, leaf_of};
use crate::grid::{multiple_beyond, step};
use crate::reader::read_leaf;
use leaf::{Bounds, Fault, Leaf, Reader};

// The first byte of a sheet of amounts.
const KIND: u8 = 0x41;

// Amount leaves are a kind.
impl Leaf<i64> for AmountLeaf {
    ghost kind = { amounts };

    ghost lawfully = { amounts_laws };

    fn blank() -> AmountLeaf {
        let bounds = Bounds {
            minimum: None,
            maximum: None,
        };
        leaf_of(bounds, &[], &[])
    }

    fn at_most(a: i64, b: i64) -> bool {
        a <= b
    }

    fn checked_increment(v: i64) -> Option<i64> {
        v.checked_add(1)
    }

    fn minimum(&self) -> Option<i64> {
        self.bounds.minimum
    }

    fn maximum(&self) -> Option<i64> {
        self.bounds.maximum
    }

    fn rule_at_most(&self, other: &AmountLeaf) -> bool {
        self.required.is_at_most(&other.required)
            && (self.barred.is_at_most(&other.barred) || !other.required.is_at_most(&self.required))
    }

    fn rule_admits(&self, v: i64) -> bool {
        self.required.divide(v) && !self.barred.bars(v)
    }

    fn next_on_grid(&self, v: i64) -> Option<i64> {
        multiple_beyond(step(self.required.sole()) as i64, v)
    }

    fn rule_covers(&self, other: &AmountLeaf) -> bool {
        self.required.divide_all(&other.required) && self.barred.bars_no_more_than(&other.barred)
    }

    #[tactic(auto, using(leaf::specs::Laws::Orders::int_hull))]
    fn join(&self, other: &AmountLeaf) -> AmountLeaf {
        AmountLeaf {
            bounds: self.bounds.hull(other.bounds),
            required: self.required,
            barred: self.barred,
        }
    }

    fn is_kind(b: u8) -> bool {
        b == KIND
    }

    #[tactic(auto, using(crate::specs::Laws::Layout::written_means))]
    fn read_fields(reader: &mut Reader<'_>, place: &mut AmountLeaf) -> Result<(), Fault>
        ensures reads { ReadsInto (leaf_at amounts) reader.old reader.new place.old place.new result }
        ensures means { WrittenMeans }
    {
        *place = read_leaf(reader)?;
        Ok(())
    }
}
