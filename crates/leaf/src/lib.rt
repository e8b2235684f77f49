// What every kind of leaf shares: the interface with its laws, windows of values, refusals, and the reader of sheets.
#![tactic(auto)]

mod bounds;
mod kind;
mod numbers;
mod reader;
mod sheet;
mod written;

pub use bounds::{Bounds, contains, includes};
pub use faults::{Fault, Layer, Refusal};
pub use kind::{Leaf, adjoins, admits, bounds_of, covers, no_later};
pub use reader::Reader;
pub use sheet::{are_flags, has_flag, rest_of};
pub use written::WrittenBound;
