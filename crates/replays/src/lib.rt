// Answers that were expected, replayed: a line of a text each.
#![tactic(auto)]

mod replay;

pub use crate::replay::{Replay, replay_all};
