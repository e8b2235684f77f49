// The library for callers in C: numbers and slices go in, numbers and bytes come out, and every table is of the call itself.
#![tactic(auto)]

mod asking;
mod lists;
mod running;
mod taken;
mod text;

pub use asking::{Answer, rule_lines_admit};
pub use lists::{Divisors, rule_lines_fold, rule_lines_thin};
pub use running::{Run, rule_lines_make, rule_lines_run};
pub use taken::Taken;
pub use text::{SheetText, rule_lines_print, rule_lines_rest};
