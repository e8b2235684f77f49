ghost use Rattle.amounts.specs.Layout.{amount_layout, amount_table, both_lists, divisor, list, lists, part};
ghost use Rattle.divisors.specs.Rows.{fractions};
ghost use Rattle.leaf.specs.Layouts.{leaf_under};
ghost use Rattle.leaf.specs.Plans.{field, made_at};
ghost use Rattle.leaf.specs.Reading.{Reads, ReadsAs};

use crate::amount::WrittenAmount;
use crate::amount_leaf::{AmountLeaf, leaf_of};
use crate::grid::LARGEST;
use divisors::{Fraction, Row};
use leaf::{Bounds, Fault, Reader, Refusal};

// The most divisors of a list as written.
const PLACES: u64 = 6;

// A numerator or denominator, from 1 to 2^63 - 1.
fn read_part(reader: &mut Reader<'_>) -> Result<u64, Fault>
    ensures { Reads (made_at amount_table (field part)) reader.old reader.new result }
{
    let start = reader.at();
    let n = reader.number()?;
    if n == 0 || n > LARGEST {
        return Err(Fault::at(Refusal::BadPart, start));
    }
    Ok(n)
}

fn read_fraction(reader: &mut Reader<'_>) -> Result<Fraction, Fault>
    ensures { Reads (made_at amount_table divisor) reader.old reader.new result }
{
    let p = read_part(reader)?;
    let q = read_part(reader)?;
    Ok(Fraction { p, q })
}

// A count and as many divisors.
#[tactic(auto, unfolding(crate::specs::Layout::list))]
fn read_list(reader: &mut Reader<'_>) -> Result<Row, Fault>
    ensures { ReadsAs fractions (made_at amount_table list) reader.old reader.new result }
{
    let start = reader.at();
    let count = reader.number()?;
    let many = Fault::at(Refusal::ManyDivisors, start);
    if count > PLACES {
        return Err(many);
    }
    let mut row = Row::empty();
    // No more than six come, so none is refused here.
    for _ in 0..count {
        let f = read_fraction(reader)?;
        row.push(f)?;
    }
    Ok(row)
}

// The required divisors, then the barred ones.
fn read_lists(reader: &mut Reader<'_>) -> Result<(Row, Row), Fault>
    ensures { ReadsAs both_lists (made_at amount_table lists) reader.old reader.new result }
{
    let required = read_list(reader)?;
    let barred = read_list(reader)?;
    Ok((required, barred))
}

// The leaf whose flags stand here.
pub(crate) fn read_leaf(reader: &mut Reader<'_>) -> Result<AmountLeaf, Fault>
    ensures { Reads (leaf_under amount_layout) reader.old reader.new result }
{
    let start = reader.at();
    let bounds = Bounds::read::<WrittenAmount>(reader)?;
    let (required, barred) = read_lists(reader)?;
    if !bounds.is_window() {
        return Err(Fault::at(Refusal::MinAboveMax, start));
    }
    Ok(leaf_of(bounds, required.fractions(), barred.fractions()))
}
