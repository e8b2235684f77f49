ghost use Rattle.faults.specs.Faults.{Answer, told};
ghost use Rattle.leaf.specs.Reading.{Reads};
ghost use Rattle.leaf.specs.Tests.{WindowsJudged};
ghost use Rattle.leaf.specs.Windows.{bound, bound_if, head_at, window_of};
ghost use Rattle.std.specs.Ordering.{partial_le};
ghost use Rattle.std.specs.Prelude.{◌≡◌, ℕ, Bool, List, Option};

use crate::bounds::Bounds;
use crate::reader::Reader;
use crate::sheet::has_flag;
use faults::{Fault, Refusal};

/// A bound as written, which may be no value.
pub trait WrittenBound: Copy {
    type Value: Copy + PartialOrd;

    ghost value_of: { Self → Option Self.Value };

    ghost signed: { Bool };

    ghost bound_at: { Bool → List ℕ → ℕ → Answer (Option Self.Value) };

    /// Whether its sign stands in the flags of a leaf on a sheet.
    fn is_signed() -> bool
        ensures { result ≡ signed };

    /// The value written, if it is one.
    fn value(self) -> Option<Self::Value>
        ensures { result ≡ value_of self };

    /// The value of the bound that starts here, under the sign that the flags give it; refused at its first byte where it is none.
    fn read(reader: &mut Reader<'_>, negative: bool) -> Result<Option<Self::Value>, Fault>
        ensures { Reads (bound_at negative) reader.old reader.new result };
}

// The value of a bound as written.
fn bound_of<W: WrittenBound>(written: Option<W>) -> Result<Option<W::Value>, Fault>
    ensures { told result ≡ bound W.value_of written }
{
    written
        .map(|w| w.value().ok_or(Fault::unplaced(Refusal::OutOfRange)))
        .transpose()
}

// A bound, if it is present.
fn read_bound<W: WrittenBound>(
    reader: &mut Reader<'_>,
    present: bool,
    negative: bool,
) -> Result<Option<W::Value>, Fault>
    ensures { Reads (bound_if W.bound_at present negative) reader.old reader.new result }
{
    if present {
        W::read(reader, negative)
    } else {
        Ok(None)
    }
}

impl<V: Copy + PartialOrd> Bounds<V> {
    /// The window of bounds as written. Refused are, in this order and naming no byte: 7 a bound that is no value, 8 a
    /// minimum above the maximum.
    #[tactic(auto, using(crate::specs::Laws::Deciding::windows_judged))]
    pub fn of_written<W: WrittenBound<Value = V>>(
        minimum: Option<W>,
        maximum: Option<W>,
    ) -> Result<Bounds<V>, Fault>
        ensures value { told result ≡ window_of W.value_of (partial_le V.partial_cmp) minimum maximum }
        ensures judged { WindowsJudged W.value_of (partial_le V.partial_cmp) }
    {
        let bounds = Bounds {
            minimum: bound_of(minimum)?,
            maximum: bound_of(maximum)?,
        };
        if bounds.is_window() {
            Ok(bounds)
        } else {
            Err(Fault::unplaced(Refusal::MinAboveMax))
        }
    }

    /// The flags of a leaf, and the bounds that they say are present, minimum first.
    pub fn read<W: WrittenBound<Value = V>>(reader: &mut Reader<'_>) -> Result<Bounds<V>, Fault>
        ensures { Reads (head_at W.bound_at W.signed) reader.old reader.new result }
    {
        let flags = reader.flags(W::is_signed())?;
        let minimum = read_bound::<W>(reader, has_flag(flags, 0), has_flag(flags, 2))?;
        let maximum = read_bound::<W>(reader, has_flag(flags, 1), has_flag(flags, 3))?;
        Ok(Bounds { minimum, maximum })
    }
}
