ghost use Rattle.questions.specs.declared.answer.Objection.TheVariants.{OutOfMemory, Refused};
ghost use Rattle.std.specs.Prelude.{◌≡◌};

use leaf::Fault;
use std::alloc::AllocError;

// Why a line has no answer: what it writes was refused, its text is of another form, or memory ran out.
#[derive(Drop)]
pub enum Objection<M> {
    Refused(Fault),
    Malformed(M),
    OutOfMemory(AllocError),
}

impl<M> From<Fault> for Objection<M> {
    ghost from_gives = { λ f o. o ≡ Refused f };

    fn from(fault: Fault) -> Objection<M> {
        Objection::Refused(fault)
    }
}

impl<M> From<AllocError> for Objection<M> {
    ghost from_gives = { λ e o. o ≡ OutOfMemory e };

    fn from(error: AllocError) -> Objection<M> {
        Objection::OutOfMemory(error)
    }
}
