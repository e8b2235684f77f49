ghost use Rattle.foreign.specs.Shown.{TellsAnswer};

use list::SheetAnswer;

/// How far a sheet was taken into a new list, and what stopped it.
#[repr(C)]
#[derive(Clone, Copy)]
pub struct Taken {
    /// How many leaves were accepted.
    pub accepted: usize,
    /// The first byte after the last of them; where there is none, that after the kind's byte, or 0 where the sheet is of no kind.
    pub start: usize,
    /// The number of what refused the sheet, 0 where nothing did.
    pub refusal: u8,
    /// The byte that the refusal names, 0 where nothing was refused.
    pub byte: usize,
}

impl From<SheetAnswer> for Taken {
    ghost from_gives = { λ a t. TellsAnswer a t };

    fn from(answer: SheetAnswer) -> Taken {
        Taken {
            accepted: answer.accepted,
            start: answer.start,
            refusal: answer.fault.map_or(0, |fault| fault.refusal.number()),
            byte: answer.fault.and_then(|fault| fault.byte).unwrap_or(0),
        }
    }
}
