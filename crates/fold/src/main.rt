// Folds lists of divisors: each line of standard input is a required list and a barred list.
#![tactic(auto)]

ghost use Rattle.fold.specs.Output.{output_of};
ghost use Rattle.std.specs.Io.KnownBytes.{Appends};
ghost use Rattle.std.specs.Prelude.{OnOk};

mod answer;
mod report;

use crate::answer::fold_line;
use crate::report::Tally;
use notation::Lines;
use std::alloc::Global;
use std::io;
use std::io::{BufWriter, Read, Write};

// Writes what each line of the text comes to, and last how many came to what.
// A loop in each program: one call for all would take a closure, and ask of its caller that this may be called.
fn fold_all<W: Write>(heap: Global, text: &[u8], out: &mut W) -> io::Result<()>
    ensures { OnOk result (Appends (W.contents out.old) (W.contents out.new) (output_of text.now)) }
{
    let mut tally = Tally::default();
    for (k, line) in (1u64..).zip(Lines::of(text)) {
        tally.report(out, k, fold_line(heap, line))?;
    }
    writeln!(out, "{tally}")
}

fn main(rt: HostRuntime) -> io::Result<()> {
    let mut text = Vec::new(rt.alloc());
    rt.stdin().read_to_end(&mut text)?;
    let mut out = BufWriter::new(rt.alloc(), rt.stdout())?;
    fold_all(rt.alloc(), &text, &mut out)?;
    out.flush()
}

#[cfg(test)]
mod tests {
    use divisors::Fraction;
    use std::test::Fail;

    const LARGEST: u64 = 0x7fff_ffff_ffff_ffff;

    #[test]
    fn parts_to_the_limit(rt: HostRuntime) {
        let largest = Fraction { p: LARGEST, q: 1 };
        let over = Fraction {
            p: LARGEST + 1,
            q: 1,
        };
        let two = Fraction { p: 2, q: 1 };
        assert!(rt; largest.reduced().is_ok());
        assert!(rt; over.reduced().is_err());
        assert!(rt; largest.checked_lcm(largest).is_some());
        assert!(rt; largest.checked_lcm(two).is_none());
    }

    #[test]
    fn multiples_at_both_ends(rt: HostRuntime) {
        let half = Fraction { p: 1 << 62, q: 2 };
        assert!(rt; half.divides(i64::MIN));
        assert!(rt; !half.divides(i64::MAX));
    }

    #[test]
    fn division_by_size(rt: HostRuntime) {
        let four_halves = Fraction { p: 4, q: 2 };
        let two = Fraction { p: 2, q: 1 };
        let three = Fraction { p: 3, q: 1 };
        assert!(rt; four_halves.divides_divisor(two));
        assert!(rt; two.divides_divisor(four_halves));
        assert!(rt; !four_halves.divides_divisor(three));
    }

    #[test]
    fn five_before_six(rt: HostRuntime) -> Result<(), Fail> {
        let seven = [Fraction { p: 2, q: 1 }; 7];
        let zero = [Fraction { p: 0, q: 1 }];
        let Err(five) = divisors::check(&seven, &zero) else {
            return Err(Fail::new("taken"));
        };
        let Err(six) = divisors::check(&seven, &seven) else {
            return Err(Fail::new("taken"));
        };
        assert!(rt; five.refusal.number() == 5);
        assert!(rt; six.refusal.number() == 6);
        Ok(())
    }
}
