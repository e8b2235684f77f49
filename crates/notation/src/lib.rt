// Text as bytes: cut at a byte, and the numbers and divisors that it writes.
#![tactic(auto)]

mod cutting;
mod fractions;
mod numbers;
mod text_lines;

pub use crate::cutting::{behind, find, front, split_once};
pub use crate::fractions::{divisor, divisors};
pub use crate::numbers::{SignedNumber, number, signed};
pub use crate::text_lines::Lines;
