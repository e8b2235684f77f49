// Divisors p/q of integers: folding of required ones, thinning of barred ones, and the questions that rules ask of them.
#![tactic(auto)]

mod editing;
mod folded;
mod folding;
mod fraction;
mod row;
mod thinned;
mod thinning;
mod whole;
mod working;
mod written;

pub use folded::Folded;
pub use fraction::Fraction;
pub use row::Row;
pub use thinned::Thinned;
pub use written::check;
