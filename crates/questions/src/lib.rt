// Answers to questions about a leaf, a line of the input each: how they are told, and how many came to what.
#![tactic(auto)]

mod answer;
mod bound;
mod counts;

pub use crate::answer::Objection;
pub use crate::bound::bound_of;
pub use crate::counts::Tally;
