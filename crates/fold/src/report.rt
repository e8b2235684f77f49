ghost use Rattle.fold.specs.Outcomes.{counted, counts, said};
ghost use Rattle.fold.specs.Texts.{divisor_text, line_text, list_text, tally_text};
ghost use Rattle.std.specs.Io.KnownBytes.{Appends};
ghost use Rattle.std.specs.Prelude.{◌≡◌, IfSome, IsSome, MatchOption, OnOk, Some};

use crate::answer::Wrong;
use divisors::{Folded, Fraction, Thinned};
use questions::Objection;
use std::io::Write;
use std::{fmt, io};

// How many lines came to what. Not the tally of questions: an answer is two lists.
#[derive(Default, Drop)]
pub(crate) struct Tally {
    folded: u64,
    refused: u64,
    malformed: u64,
}

impl fmt::Display for Tally {
    ghost output = { λ t. Some (tally_text (counts t)) };

    fn fmt<W: fmt::Write>(&self, f: &mut fmt::Formatter<W>) -> fmt::Result {
        let Tally {
            folded,
            refused,
            malformed,
        } = self;
        write!(
            f,
            "folded {folded}, refused {refused}, malformed {malformed}"
        )
    }
}

// A divisor as it is read.
#[derive(Clone, Copy)]
struct Divisor(Fraction);

impl fmt::Display for Divisor {
    ghost output = { λ d. Some (divisor_text d.0) };

    fn fmt<W: fmt::Write>(&self, f: &mut fmt::Formatter<W>) -> fmt::Result {
        let Fraction { p, q } = self.0;
        match q {
            1 => write!(f, "{p}"),
            _ => write!(f, "{p}/{q}"),
        }
    }
}

// A list as it is read.
#[derive(Clone, Copy)]
struct Listed<'a>(&'a [Fraction]);

impl fmt::Display for Listed<'_> {
    ghost output = { λ l. Some (list_text l.0.now) };

    fn fmt<W: fmt::Write>(&self, f: &mut fmt::Formatter<W>) -> fmt::Result {
        let [first, rest @ ..] = self.0 else {
            return f.write_str("-");
        };
        let first = Divisor(*first);
        write!(f, "{first}")?;
        for fraction in rest {
            let divisor = Divisor(*fraction);
            write!(f, ",{divisor}")?;
        }
        Ok(())
    }
}

impl Tally {
    // Writes what line `k` comes to, and counts it; an error where memory ran out.
    pub(crate) fn report<W: Write>(
        &mut self,
        out: &mut W,
        k: u64,
        answer: Result<(Folded, Thinned), Objection<Wrong>>,
    ) -> io::Result<()>
        ensures counts { MatchOption (said answer) (counts self.new ≡ counts self.old) (λ o. counts self.new ≡ counted o (counts self.old)) }
        ensures memory { OnOk result (IsSome (said answer)) }
        ensures written { OnOk result (IfSome (said answer) (λ o. Appends (W.contents out.old) (W.contents out.new) (line_text k o))) }
    {
        match answer {
            Ok((required, barred)) => {
                self.folded = self.folded.saturating_add(1);
                let required = required.row();
                let barred = barred.row();
                let required = Listed(required.fractions());
                let barred = Listed(barred.fractions());
                writeln!(out, "{required} {barred}")
            }
            Err(Objection::Refused(fault)) => {
                self.refused = self.refused.saturating_add(1);
                let n = fault.refusal.number();
                writeln!(out, "refused {n}")
            }
            Err(Objection::Malformed(wrong)) => {
                self.malformed = self.malformed.saturating_add(1);
                writeln!(out, "line {k}: {wrong}")
            }
            Err(Objection::OutOfMemory(error)) => Err(error.into()),
        }
    }
}
