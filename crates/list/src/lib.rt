// One list for every kind of leaf, in a table that its caller lends: leaves are inserted or read from sheets, and a reading leaves the lines.
#![tactic(auto)]

mod dropping;
mod leaves;
mod merging;
mod placing;
mod questions;
mod sheets;

pub use leaves::Leaves;
pub use sheets::SheetAnswer;
