use crate::fraction::Fraction;

// The places of a working list: room for two kept lists put together.
pub(crate) const ROOM: usize = 12;

// A list of fractions that is being worked on, in the first `count` places.
#[derive(Drop)]
pub(crate) struct Working {
    pub(crate) items: [Fraction; 12],
    pub(crate) count: usize,
}
