ghost use Rattle.days.specs.Making.{numbered};
ghost use Rattle.days.specs.Layout.{date, day_table};
ghost use Rattle.leaf.specs.Plans.{made_at};
ghost use Rattle.std.specs.Prelude.{false};

use crate::calendar::{Date, day_number};
use leaf::{Fault, Reader, Refusal, WrittenBound};

// A bound of days is written as its date.
impl WrittenBound for Date {
    type Value = u32;

    ghost value_of = { numbered };

    ghost signed = { false };

    ghost bound_at = { λ negative. made_at day_table (date negative) };

    fn is_signed() -> bool {
        false
    }

    fn value(self) -> Option<u32> {
        day_number(self.year, self.month, self.day)
    }

    fn read(reader: &mut Reader<'_>, _negative: bool) -> Result<Option<u32>, Fault> {
        let start = reader.at();
        let year = reader.number()?;
        let month = reader.number()?;
        let day = reader.number()?;
        match day_number(year, month, day) {
            None => Err(Fault::at(Refusal::OutOfRange, start)),
            some => Ok(some),
        }
    }
}
