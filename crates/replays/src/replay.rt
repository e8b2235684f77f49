ghost use Rattle.notation.specs.Text.{lines_of};
ghost use Rattle.replays.specs.Replays.{difference, differs, is_case, output_of};
ghost use Rattle.std.specs.Io.KnownBytes.{Appends};
ghost use Rattle.std.specs.Prelude.{◌≡◌, ℕ, ◌+◌, ◌-◌, ◌^◌, min, Bool, cond, count_by, List, IfOk, OnOk, ◌==◌};

use notation::Lines;
use std::alloc::AllocError;
use std::io;
use std::io::Write;

/// How the answer that a case expects is compared with the one that is found.
pub trait Replay {
    ghost holds: { List ℕ → Bool };

    /// Whether a case has the answer that it expects; an error where memory runs out.
    fn holds(&self, case: &[u8]) -> Result<bool, AllocError>
        ensures { IfOk result (λ b. b ≡ holds case.now) };
}

// How many cases were replayed, and how many of them differ.
#[derive(Default, Drop)]
struct Tally {
    replayed: usize,
    different: usize,
}

// Replays line `k`, if it is a case, counts it, and names it where it differs.
fn replay_line<R: Replay, W: Write>(
    replay: &R,
    k: usize,
    line: &[u8],
    tally: &mut Tally,
    out: &mut W,
) -> io::Result<()>
    ensures replayed { OnOk result (tally.new.replayed ≡ cond (is_case line.now) (min (tally.old.replayed + 1) (2 ^ 64 - 1)) tally.old.replayed) }
    ensures different { OnOk result (tally.new.different ≡ cond (differs R.holds line.now) (min (tally.old.different + 1) (2 ^ 64 - 1)) tally.old.different) }
    ensures written { OnOk result (Appends (W.contents out.old) (W.contents out.new) (difference R.holds k line.now)) }
{
    if matches!(line, [] | [b'#', ..]) {
        return Ok(());
    }
    tally.replayed = tally.replayed.saturating_add(1);
    if replay.holds(line)? {
        return Ok(());
    }
    tally.different = tally.different.saturating_add(1);
    writeln!(out, "line {k}: different")
}

/// Replays each line, names those that differ, and last how many; whether none does. An empty line and one that `#` begins are no cases.
pub fn replay_all<R: Replay, W: Write>(replay: &R, text: &[u8], out: &mut W) -> io::Result<bool>
    ensures written { OnOk result (Appends (W.contents out.old) (W.contents out.new) (output_of R.holds text.now)) }
    ensures same { IfOk result (λ b. b ≡ (count_by (differs R.holds) (lines_of text.now) == 0)) }
{
    let mut tally = Tally::default();
    for (k, line) in (1usize..).zip(Lines::of(text)) {
        replay_line(replay, k, line, &mut tally, out)?;
    }
    let Tally {
        replayed,
        different,
    } = tally;
    writeln!(out, "replayed {replayed}, different {different}")?;
    Ok(different == 0)
}
