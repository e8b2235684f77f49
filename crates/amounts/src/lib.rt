// Amount leaves: whole cents in a window, with required and barred divisors.
#![tactic(auto)]

mod amount;
mod amount_leaf;
mod grid;
mod kind;
mod reader;
mod text;

pub use amount::WrittenAmount;
pub use amount_leaf::AmountLeaf;
