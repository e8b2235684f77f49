// Refusals, for every crate that refuses: by number, with the byte that is named and the layer that refused.
#![tactic(auto)]

mod fault;

pub use fault::{Fault, Layer, Refusal};
