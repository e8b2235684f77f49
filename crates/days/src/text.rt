ghost use Rattle.std.specs.Prelude.{◌<◌, ◌≤◌, length};
ghost use Rattle.days.specs.Text.{DatesStand, bound_text, date_text, line_text, two_digits, weekday_text, weekdays_text};
ghost use Rattle.texts.specs.Cursors.{Put};
ghost use Rattle.texts.specs.Text.{Texted};

use crate::calendar::{Date, date_of};
use crate::day_leaf::DayLeaf;
use leaf::{Fault, has_flag};
use texts::{Cursor, Line};

// Each function writes behind the cursor, by hand as those of `texts`; `short` says how long its text is at most.
fn put_two_digits(out: &mut Cursor, n: u64)
    ensures { Put out.old (two_digits n) out.new }
{
    out.byte(b'0' + (n / 10 % 10) as u8);
    out.byte(b'0' + (n % 10) as u8);
}

fn put_date(out: &mut Cursor, date: Date)
    ensures { Put out.old (date_text date) out.new }
{
    put_two_digits(out, date.year / 100);
    put_two_digits(out, date.year);
    out.byte(b'-');
    put_two_digits(out, date.month);
    out.byte(b'-');
    put_two_digits(out, date.day);
}

fn put_bound(out: &mut Cursor, day: Option<u32>)
    ensures put { Put out.old (bound_text day) out.new }
    ensures short { length (bound_text day) ≤ 10 }
{
    let Some(n) = day else {
        return out.byte(b'*');
    };
    match date_of(n) {
        None => out.byte(b'*'),
        Some(date) => put_date(out, date),
    }
}

// The digit of a weekday, if it is in the set.
fn put_weekday(out: &mut Cursor, set: u8, k: u32)
    requires { k < 7 }
    ensures { Put out.old (weekday_text set k) out.new }
{
    if has_flag(set, k) {
        out.byte(b'1' + k as u8);
    }
}

fn put_weekdays(out: &mut Cursor, set: u8)
    ensures put { Put out.old (weekdays_text set 7) out.new }
    ensures short { length (weekdays_text set 7) ≤ 7 }
{
    for k in 0..7 {
        put_weekday(out, set, k);
    }
}

// Day leaves print as lines.
impl Line for DayLeaf {
    ghost text = { line_text };

    fn put(&self, out: &mut Cursor) {
        put_bound(out, self.bounds.minimum);
        out.byte(b' ');
        put_bound(out, self.bounds.maximum);
        out.byte(b' ');
        put_weekdays(out, self.weekdays);
        out.byte(b'\n');
    }
}

impl DayLeaf {
    /// The leaf's line and a line feed at the front of the buffer, whose rest stays; refusal 11 where it is under 600 bytes. The trait's call,
    /// for users that do not name `Line`.
    #[tactic(auto, using(crate::proofs::WrittenDates::dates_stand))]
    pub fn write_line(&self, buf: &mut [u8]) -> Result<usize, Fault>
        ensures text { Texted (line_text self.now) buf.old buf.new result }
        ensures dates { DatesStand }
    {
        Line::write_line(self, buf)
    }
}
