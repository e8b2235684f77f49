ghost use Rattle.amounts.specs.Making.{amount_in};
ghost use Rattle.amounts.specs.Layout.{amount, amount_table};
ghost use Rattle.amounts.specs.Values.{amount_of};
ghost use Rattle.leaf.specs.Plans.{made_at};
ghost use Rattle.std.specs.Prelude.{◌≡◌, true};

use leaf::{Fault, Reader, Refusal, WrittenBound};

// An amount as written: a magnitude and a sign.
#[derive(Clone, Copy)]
pub struct WrittenAmount {
    pub magnitude: u64,
    pub negative: bool,
}

impl WrittenAmount {
    // The amount, if it is from -2^63 to 2^63 - 1 and no minus zero.
    pub fn value(self) -> Option<i64>
        ensures { result ≡ amount_of self.negative self.magnitude }
    {
        if !self.negative {
            return i64::try_from(self.magnitude).ok();
        }
        if self.magnitude == 0 {
            return None;
        }
        0i64.checked_sub_unsigned(self.magnitude)
    }
}

// A bound of amounts is written so; on a sheet its sign stands in the flags.
impl WrittenBound for WrittenAmount {
    type Value = i64;

    ghost value_of = { amount_in };

    ghost signed = { true };

    ghost bound_at = { λ negative. made_at amount_table (amount negative) };

    fn is_signed() -> bool {
        true
    }

    fn value(self) -> Option<i64> {
        WrittenAmount::value(self)
    }

    #[tactic(auto, unfolding(crate::specs::Layout::amount))]
    fn read(reader: &mut Reader<'_>, negative: bool) -> Result<Option<i64>, Fault> {
        let start = reader.at();
        let magnitude = reader.number()?;
        let written = WrittenAmount {
            magnitude,
            negative,
        };
        match WrittenAmount::value(written) {
            None => Err(Fault::at(Refusal::OutOfRange, start)),
            some => Ok(some),
        }
    }
}
