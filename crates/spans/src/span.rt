ghost use Rattle.faults.specs.Faults.{told};
ghost use Rattle.leaf.specs.Kind.{Lawful};
ghost use Rattle.leaf.specs.Reading.{Reads};
ghost use Rattle.leaf.specs.Layouts.{leaf_under};
ghost use Rattle.leaf.specs.Plans.{made_at};
ghost use Rattle.spans.specs.Spans.{day_plan, made_of, span_layout, span_table, spans};
ghost use Rattle.std.specs.Prelude.{◌≡◌, false, IfOk, Some};
ghost use Rattle.spans.specs.Every.{spans_laws};

use leaf::{Bounds, Fault, Leaf, Reader, Refusal, WrittenBound};

// The first byte of a sheet of spans.
const KIND: u8 = 0x53;

/// A window of days: its rule admits every day.
#[derive(Clone, Copy)]
pub struct Span {
    bounds: Bounds<u32>,
}

impl Span {
    /// The span of these bounds; refused 8, naming no byte, where the minimum is above the maximum.
    pub fn new(minimum: Option<u32>, maximum: Option<u32>) -> Result<Span, Fault>
        ensures value { told result ≡ made_of minimum maximum }
        ensures lawful { IfOk result (λ a. Lawful spans a) }
    {
        let bounds = Bounds { minimum, maximum };
        if !bounds.is_window() {
            return Err(Fault::unplaced(Refusal::MinAboveMax));
        }
        Ok(Span { bounds })
    }
}

// A day as written on a sheet: its number, below 2^32.
#[derive(Clone, Copy)]
struct DayNumber(u32);

impl WrittenBound for DayNumber {
    type Value = u32;

    ghost value_of = { λ d. Some d.0 };

    ghost signed = { false };

    ghost bound_at = { λ negative. made_at span_table (day_plan negative) };

    fn is_signed() -> bool {
        false
    }

    fn value(self) -> Option<u32> {
        Some(self.0)
    }

    fn read(reader: &mut Reader<'_>, _negative: bool) -> Result<Option<u32>, Fault> {
        let start = reader.at();
        let n = reader.number()?;
        match u32::try_from(n) {
            Ok(day) => Ok(Some(day)),
            Err(_) => Err(Fault::at(Refusal::OutOfRange, start)),
        }
    }
}

// The span whose flags stand here.
fn read_span(reader: &mut Reader<'_>) -> Result<Span, Fault>
    ensures { Reads (leaf_under span_layout) reader.old reader.new result }
{
    let start = reader.at();
    let bounds = Bounds::read::<DayNumber>(reader)?;
    if !bounds.is_window() {
        return Err(Fault::at(Refusal::MinAboveMax, start));
    }
    Ok(Span { bounds })
}

// Windows of every day are a kind. On a sheet a leaf is its flags and the days that they name.
impl Leaf<u32> for Span {
    ghost kind = { spans };

    fn blank() -> Span {
        Span {
            bounds: Bounds {
                minimum: None,
                maximum: None,
            },
        }
    }

    fn at_most(a: u32, b: u32) -> bool {
        a <= b
    }

    fn checked_increment(v: u32) -> Option<u32> {
        v.checked_add(1)
    }

    fn minimum(&self) -> Option<u32> {
        self.bounds.minimum
    }

    fn maximum(&self) -> Option<u32> {
        self.bounds.maximum
    }

    fn rule_at_most(&self, _other: &Span) -> bool {
        true
    }

    fn rule_admits(&self, _v: u32) -> bool {
        true
    }

    fn next_on_grid(&self, v: u32) -> Option<u32> {
        v.checked_add(1)
    }

    fn rule_covers(&self, _other: &Span) -> bool {
        true
    }

    fn join(&self, other: &Span) -> Span {
        Span {
            bounds: self.bounds.hull(other.bounds),
        }
    }

    fn is_kind(b: u8) -> bool {
        b == KIND
    }

    fn read_fields(reader: &mut Reader<'_>, place: &mut Span) -> Result<(), Fault> {
        *place = read_span(reader)?;
        Ok(())
    }

    ghost lawfully = { spans_laws };
}
