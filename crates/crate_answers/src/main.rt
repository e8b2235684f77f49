// Replays answers of the Rust crate, a line each, and counts those that differ.
#![tactic(auto)]

ghost use Rattle.crate_answers.specs.Answers.{is_same};

mod admitting;
mod answers;
mod folding;
mod printing;

use crate::answers::is_same as is_same_answer;
use replays::{Replay, replay_all};
use std::alloc::{AllocError, Global};
use std::io;
use std::io::{Read, Write};

// Answers of the Rust crate.
#[derive(Clone, Copy)]
struct CrateAnswers {
    heap: Global,
}

impl Replay for CrateAnswers {
    ghost holds = { is_same };

    // Whether the answer of a line is this repository's too.
    fn holds(&self, line: &[u8]) -> Result<bool, AllocError> {
        is_same_answer(self.heap, line)
    }
}

fn main(rt: HostRuntime) -> io::Result<()> {
    let mut text = Vec::new(rt.alloc());
    rt.stdin().read_to_end(&mut text)?;
    let answers = CrateAnswers { heap: rt.alloc() };
    let mut out = rt.stdout();
    let same = replay_all(&answers, &text, &mut out)?;
    out.flush()?;
    if !same {
        return Err(io::Error::other("an answer differs"));
    }
    Ok(())
}
