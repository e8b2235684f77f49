// Day leaves: days of 2000 to 2199 in a window, with a set of weekdays.
#![tactic(auto)]

mod calendar;
mod day_leaf;
mod kind;
mod reader;
mod text;
mod weekdays;
mod written;

pub use calendar::{Date, date_of, day_number};
pub use day_leaf::DayLeaf;
