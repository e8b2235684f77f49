// Two more kinds of leaves at days, by which the interface is tried: windows of every day, and a layer over any kind at days that leaves a day out.
#![tactic(auto)]

mod closed;
mod span;

pub use closed::Closed;
pub use span::Span;
