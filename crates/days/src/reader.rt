ghost use Rattle.days.specs.Layout.{day_layout, day_table, weekdays};
ghost use Rattle.leaf.specs.Layouts.{leaf_under};
ghost use Rattle.leaf.specs.Plans.{field, made_at};
ghost use Rattle.leaf.specs.Reading.{Reads};

use crate::calendar::Date;
use crate::day_leaf::DayLeaf;
use crate::weekdays::is_set;
use leaf::{Bounds, Fault, Reader, Refusal};

// The weekday set.
fn read_weekdays(reader: &mut Reader<'_>) -> Result<u8, Fault>
    ensures { Reads (made_at day_table (field weekdays)) reader.old reader.new result }
{
    let start = reader.at();
    let set = reader.number()?;
    if !is_set(set) {
        return Err(Fault::at(Refusal::BadWeekdays, start));
    }
    Ok(set as u8)
}

// The leaf whose flags stand here.
pub(crate) fn read_leaf(reader: &mut Reader<'_>) -> Result<DayLeaf, Fault>
    ensures { Reads (leaf_under day_layout) reader.old reader.new result }
{
    let start = reader.at();
    let bounds = Bounds::read::<Date>(reader)?;
    let weekdays = read_weekdays(reader)?;
    if !bounds.is_window() {
        return Err(Fault::at(Refusal::MinAboveMax, start));
    }
    Ok(DayLeaf { bounds, weekdays })
}
