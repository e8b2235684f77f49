ghost use Rattle.std.specs.Prelude.{◌≡◌, ℕ, ◌+◌, ◌-◌, ◌<◌, ◌≤◌, false, Some, IfSome, MatchOption};
ghost use Rattle.days.specs.Calendar.{CalendarStands, Valid, before, day_number, day_of, is_day_number, leap, year_start};

// A date as it is written, whether there is such a day or not.
#[derive(Clone, Copy)]
pub struct Date {
    pub year: u64,
    pub month: u64,
    pub day: u64,
}

// 31 December 2199; 1 January 2000 is 0.
pub(crate) const LAST_DAY: u32 = 73048;

// Days before each month of a common year, and, last, before the next January.
const MONTH_STARTS: [u32; 13] = [0, 31, 59, 90, 120, 151, 181, 212, 243, 273, 304, 334, 365];

fn is_leap(year: u32) -> bool
    ensures { result ≡ leap year }
{
    year % 4 == 0 && (year % 100 != 0 || year % 400 == 0)
}

fn month_start(is_leap: bool, month: u32) -> u32
    requires { (1 ≤ month) × (month ≤ 13) }
    ensures value { result ≡ before is_leap month }
    ensures small { result ≤ 366 }
{
    let start = MONTH_STARTS[month as usize - 1];
    if is_leap && month > 2 {
        start + 1
    } else {
        start
    }
}

// The days of the years before it, by a `for`: of a chain's sum it is not proved that it fits.
fn year_start(year: u32) -> u32
    requires { (2000 ≤ year) × (year ≤ 2200) }
    ensures value { result ≡ year_start (year - 2000) }
    ensures small { result ≤ 73200 }
{
    let mut days = 0;
    for y in 2000..year {
        days += month_start(is_leap(y), 13);
    }
    days
}

// The number of the day, or none where there is no such day. Three numbers, not a `Date`: a public signature, which stays.
pub fn day_number(year: u64, month: u64, day: u64) -> Option<u32>
    ensures value { result ≡ day_of year month day }
    ensures laws { CalendarStands }
{
    if year < 2000 || year > 2199 || month < 1 || month > 12 || day < 1 {
        return None;
    }
    let y = year as u32;
    let m = month as u32;
    let leap = is_leap(y);
    let start = month_start(leap, m);
    let next = month_start(leap, m + 1);
    if day > u64::from(next.saturating_sub(start)) {
        return None;
    }
    Some(year_start(y) + start + (day as u32 - 1))
}

// The day `left` days after 1 January of `year`.
fn date_in(year: u32, left: u32) -> Date
    requires { (2000 ≤ year) × ((year ≤ 2199) × (left < before (leap year) 13)) }
    ensures { (result.year ≡ year) × Valid year result.month result.day × (before (leap year) result.month + (result.day - 1) ≡ left) }
{
    let leap = is_leap(year);
    for month in 1..13 {
        let start = month_start(leap, month);
        if left < month_start(leap, month + 1) {
            return Date {
                year: u64::from(year),
                month: u64::from(month),
                day: u64::from(left - start + 1),
            };
        }
    }
    unreachable()
}

fn find_date(n: u32) -> Date
    requires { n < 73049 }
    ensures { Valid result.year result.month result.day × (day_number result.year result.month result.day ≡ n) }
{
    let mut left = n;
    for year in 2000..2200 {
        let days = month_start(is_leap(year), 13);
        if left < days {
            return date_in(year, left);
        }
        left -= days;
    }
    unreachable()
}

// The date of the day with that number, absent past the last day.
pub fn date_of(n: u32) -> Option<Date>
    ensures value { MatchOption result (is_day_number n ≡ false) (λ d. day_of d.year d.month d.day ≡ Some n) }
    ensures inverse { IfSome result (λ d. (year month day : ℕ) → day_of year month day ≡ Some n → (d.year ≡ year) × (d.month ≡ month) × (d.day ≡ day)) }
    ensures laws { CalendarStands }
{
    if n <= LAST_DAY {
        Some(find_date(n))
    } else {
        None
    }
}
