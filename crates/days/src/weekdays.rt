ghost use Rattle.days.specs.Weekdays.{PartOf, holds, is_set, next_day, is_on_grid};
ghost use Rattle.std.specs.Prelude.{◌≡◌, Decides};

use crate::calendar::LAST_DAY;
use leaf::has_flag;

// Whether the day's weekday is in the set; no number past the last day is a day.
#[tactic(auto, unfolding(crate::specs::Weekdays::is_on_grid))]
pub(crate) fn is_in_set(set: u8, day: u32) -> bool
    ensures { result ≡ is_on_grid set day }
{
    day <= LAST_DAY && has_flag(set, (day + 5) % 7)
}

// The least day after `day` whose weekday is in the set: weekdays come again after seven days.
pub(crate) fn next_in_set(set: u8, day: u32) -> Option<u32>
    ensures { result ≡ next_day set day }
{
    if day >= LAST_DAY {
        return None;
    }
    for next in day + 1..day + 8 {
        if is_in_set(set, next) {
            return Some(next);
        }
    }
    None
}

// Whether b's weekdays are all in a.
pub(crate) fn holds_set(a: u8, b: u8) -> bool
    ensures value { result ≡ holds a b }
    ensures meant { Decides result (PartOf b a) }
{
    b & a == b
}

// Whether it is a set of weekdays: at least one, none past Sunday.
pub(crate) fn is_set(set: u64) -> bool
    ensures { result ≡ is_set set }
{
    (1..=127).contains(&set)
}
