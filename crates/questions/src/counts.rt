ghost use Rattle.questions.specs.Outcomes.{counted, counts, said};
ghost use Rattle.questions.specs.Texts.{PrintsAs, outcome_text, tally_text};
ghost use Rattle.std.specs.Io.KnownBytes.{Appends};
ghost use Rattle.std.specs.Prelude.{◌≡◌, ℕ, List, IfSome, IsSome, MatchOption, OnOk, Some};

use crate::answer::Objection;
use std::fmt::Display;
use std::io::Write;
use std::{fmt, io};

// How many questions came to what.
#[derive(Default, Drop)]
pub struct Tally {
    pub answered: u64,
    pub refused: u64,
    pub malformed: u64,
}

impl fmt::Display for Tally {
    ghost output = { λ t. Some (tally_text (counts t)) };

    fn fmt<W: fmt::Write>(&self, f: &mut fmt::Formatter<W>) -> fmt::Result {
        let Tally {
            answered,
            refused,
            malformed,
        } = self;
        write!(
            f,
            "answered {answered}, refused {refused}, malformed {malformed}"
        )
    }
}

impl Tally {
    // Writes what line `k` comes to, and counts it; an error where memory ran out.
    pub fn report<W: Write, M: Display + Drop>(
        &mut self,
        out: &mut W,
        k: u64,
        answer: Result<bool, Objection<M>>,
    ) -> io::Result<()>
        ensures counts { MatchOption (said answer) (counts self.new ≡ counts self.old) (λ o. counts self.new ≡ counted o (counts self.old)) }
        ensures memory { OnOk result (IsSome (said answer)) }
        ensures written { (wrong : M → List ℕ) → PrintsAs M.output wrong
            → OnOk result (IfSome (said answer) (λ o. Appends (W.contents out.old) (W.contents out.new) (outcome_text wrong k o))) }
    {
        match answer {
            Ok(admitted) => {
                self.answered = self.answered.saturating_add(1);
                let word = if admitted { "yes" } else { "no" };
                writeln!(out, "{word}")
            }
            Err(Objection::Refused(fault)) => {
                self.refused = self.refused.saturating_add(1);
                let n = fault.refusal.number();
                writeln!(out, "refused {n}")
            }
            Err(Objection::Malformed(wrong)) => {
                self.malformed = self.malformed.saturating_add(1);
                writeln!(out, "line {k}: {wrong}")
            }
            Err(Objection::OutOfMemory(error)) => Err(error.into()),
        }
    }
}
