ghost use Rattle.days.specs.Days.{days};
ghost use Rattle.days.specs.Making.{MakerJudged, made_of};
ghost use Rattle.days.specs.Meaning.{Means};
ghost use Rattle.days.specs.Words.{value_of};
ghost use Rattle.days.specs.Worked.{WorkedDays};
ghost use Rattle.faults.specs.Faults.{told};
ghost use Rattle.leaf.specs.Kind.{Lawful};
ghost use Rattle.std.specs.Prelude.{◌≡◌, IfOk, OnOk};

use crate::calendar::Date;
use crate::weekdays::is_set;
use leaf::{Bounds, Fault, Refusal};

// A window of days, by their numbers from 1 January 2000, with a set of weekdays, bit 0 Monday.
#[derive(Clone, Copy)]
pub struct DayLeaf {
    pub(crate) bounds: Bounds<u32>,
    pub(crate) weekdays: u8,
}

impl DayLeaf {
    // The leaf of these bounds and weekdays. Refused are, in this order and naming no byte: 7 a date that is none, 8 a minimum above the
    // maximum, 9 the weekday set.
    #[tactic(auto, using(crate::proofs::Making::maker_judged))]
    pub fn new(minimum: Option<Date>, maximum: Option<Date>, set: u64) -> Result<DayLeaf, Fault>
        ensures value { told result ≡ made_of minimum maximum set }
        ensures sound { IfOk result (λ a. Lawful days a) }
        ensures means { IfOk result (λ a. Means (value_of minimum) (value_of maximum) set a) }
        ensures judged { MakerJudged }
        ensures worked { OnOk result (WorkedDays) }
    {
        let bounds = Bounds::of_written(minimum, maximum)?;
        if !is_set(set) {
            return Err(Fault::unplaced(Refusal::BadWeekdays));
        }
        Ok(DayLeaf {
            bounds,
            weekdays: set as u8,
        })
    }
}
