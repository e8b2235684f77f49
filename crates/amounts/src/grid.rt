ghost use Rattle.std.specs.Prelude.{◌≡◌, ◌^◌, ◌<◌, pos, ◌<ℤ◌, unsigned_abs};
ghost use Rattle.amounts.specs.Rules.{step_of};
ghost use Rattle.amounts.specs.Values.{next_of};

use divisors::Fraction;

// The largest numerator and denominator, and so the largest step of a grid.
pub(crate) const LARGEST: u64 = 0x7fff_ffff_ffff_ffff;

// The step of a rule's grid: its sole divisor where that is whole, else 1.
pub(crate) fn step(sole: Option<Fraction>) -> u64
    ensures value { result ≡ step_of sole }
    ensures low { 0 < result }
    ensures high { result < 2 ^ 63 }
{
    match sole {
        Some(Fraction { p, q: 1 }) if 0 < p && p <= LARGEST => p,
        _ => 1,
    }
}

// The least multiple of `step` above `v`, where that is an amount: a remainder below 0 is taken back, else the rest of a step is gone.
pub(crate) fn multiple_beyond(step: i64, v: i64) -> Option<i64>
    requires { pos 0 <ℤ step }
    ensures { result ≡ next_of (unsigned_abs step) v }
{
    let over = v % step;
    let up = if over < 0 { -over } else { step - over };
    v.checked_add(up)
}
