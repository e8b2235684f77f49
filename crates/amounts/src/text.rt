ghost use Rattle.std.specs.Prelude.{◌*◌, ◌≤◌, length};
ghost use Rattle.amounts.specs.Text.{bound_text, fraction_text, line_text, list_text, more_text};
ghost use Rattle.std.specs.Fmt.{signed_decimal};
ghost use Rattle.texts.specs.Cursors.{Put};
ghost use Rattle.texts.specs.Text.{Texted};

use crate::amount_leaf::AmountLeaf;
use divisors::Fraction;
use leaf::Fault;
use texts::{Cursor, Line};

// Each function writes behind the cursor, by hand as those of `texts`; `short` says how long its text is at most.
fn put_signed(out: &mut Cursor, z: i64)
    ensures put { Put out.old (signed_decimal z) out.new }
    ensures short { length (signed_decimal z) ≤ 20 }
{
    if z < 0 {
        out.byte(b'-');
    }
    out.decimal(z.unsigned_abs());
}

fn put_bound(out: &mut Cursor, bound: Option<i64>)
    ensures put { Put out.old (bound_text bound) out.new }
    ensures short { length (bound_text bound) ≤ 20 }
{
    match bound {
        None => out.byte(b'*'),
        Some(z) => put_signed(out, z),
    }
}

fn put_fraction(out: &mut Cursor, f: Fraction)
    ensures put { Put out.old (fraction_text f) out.new }
    ensures short { length (fraction_text f) ≤ 41 }
{
    out.decimal(f.p);
    if f.q != 1 {
        out.byte(b'/');
        out.decimal(f.q);
    }
}

// A comma before each fraction.
fn put_more(out: &mut Cursor, fs: &[Fraction])
    ensures put { Put out.old (more_text fs.now) out.new }
    ensures short { length (more_text fs.now) ≤ 42 * length fs.now }
{
    let [first, rest @ ..] = fs else {
        return;
    };
    out.byte(b',');
    put_fraction(out, *first);
    put_more(out, rest)
}

// A list of fractions, or a dash.
fn put_list(out: &mut Cursor, fs: &[Fraction])
    ensures put { Put out.old (list_text fs.now) out.new }
    ensures short { length fs.now ≤ 6 → length (list_text fs.now) ≤ 252 }
{
    let [first, rest @ ..] = fs else {
        return out.byte(b'-');
    };
    put_fraction(out, *first);
    put_more(out, rest)
}

// Amount leaves print as lines.
impl Line for AmountLeaf {
    ghost text = { line_text };

    fn put(&self, out: &mut Cursor) {
        put_bound(out, self.bounds.minimum);
        out.byte(b' ');
        put_bound(out, self.bounds.maximum);
        out.byte(b' ');
        put_list(out, self.required.fractions());
        out.byte(b' ');
        put_list(out, self.barred.fractions());
        out.byte(b'\n');
    }
}

impl AmountLeaf {
    // The leaf's line and a line feed at the front of the buffer, whose rest stays; refusal 11 where it is under 600 bytes. The trait's call,
    // for users that do not name `Line`.
    pub fn write_line(&self, buf: &mut [u8]) -> Result<usize, Fault>
        ensures { Texted (line_text self.now) buf.old buf.new result }
    {
        Line::write_line(self, buf)
    }
}
