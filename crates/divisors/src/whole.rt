ghost use Rattle.std.specs.Prelude.{◌≡◌, ◌*◌, ◌%◌, ◌<◌, ◌==◌};
ghost use Rattle.divisors.specs.Joining.{fitting};
ghost use Rattle.divisors.specs.Shared.{IsShared, rest_of, shared_of, strip_of};
ghost use Rattle.divisors.specs.Whole.{IsGcd, IsLcm, gcd_of, lcm_of};
ghost use Rattle.std.specs.Ordering.{MatchOrdering};

use std::cmp::Ordering;

// The largest numerator and denominator.
pub(crate) const LARGEST: u64 = 0x7fff_ffff_ffff_ffff;

// The greatest common divisor: each step goes on with a smaller remainder.
pub(crate) fn gcd(a: u64, b: u64) -> u64
    ensures value { result ≡ gcd_of a b }
    ensures greatest { IsGcd a b result }
{
    match b {
        0 => a,
        1 => 1,
        _ => gcd(b, a % b),
    }
}

// The least common multiple, or nothing where it exceeds 2^63 - 1.
pub(crate) fn lcm(a: u64, b: u64) -> Option<u64>
    ensures value { result ≡ fitting (lcm_of a b) }
    ensures least { IsLcm a b (lcm_of a b) }
{
    if a == 0 {
        return Some(0);
    }
    let l = (a / gcd(a, b)).checked_mul(b)?;
    (l <= LARGEST).then_some(l)
}

// `a` with all that it shares with `b` divided out.
fn rest(a: u64, b: u64) -> u64
    requires { 0 < a }
    ensures { result ≡ rest_of a b }
{
    let g = gcd(a, b);
    if g == 1 { a } else { rest(a / g, b) }
}

// The shared part of `a` divided out, or nothing where it is 1 or does not divide `b`.
pub(crate) fn stripped(a: u64, b: u64) -> Option<u64>
    requires { 0 < a }
    ensures value { result ≡ strip_of a b }
    ensures shared { IsShared a b (shared_of a b) }
{
    let shared = a / rest(a, b);
    if shared != 1 && b % shared == 0 {
        Some(a / shared)
    } else {
        None
    }
}

// Whether `n * q` is a multiple of `p`, with no product: of what is left of `p` in lowest terms `n` is a multiple.
pub(crate) fn is_multiple(n: u64, p: u64, q: u64) -> bool
    ensures { result ≡ (n * q % p == 0) }
{
    if p == 0 {
        return n == 0 || q == 0;
    }
    if q == 1 {
        return n % p == 0;
    }
    n % (p / gcd(p, q)) == 0
}

// The order of p * s against r * q, with no product: whole parts first, then the remainders, turned over. Out of line, so that the order of
// fractions is short where the parts below are alike.
#[inline(never)]
pub(crate) fn order(p: u64, q: u64, r: u64, s: u64) -> Ordering
    ensures { MatchOrdering result (p * s < r * q) (p * s ≡ r * q) (r * q < p * s) }
{
    if q == 0 {
        return sign(p, s);
    }
    if s == 0 {
        return if r == 0 {
            Ordering::Equal
        } else {
            Ordering::Less
        };
    }
    let a = p / q;
    let b = r / s;
    match a.cmp(&b) {
        Ordering::Equal => order(s, r % s, q, p % q),
        unequal => unequal,
    }
}

// The order of a product against 0.
fn sign(a: u64, b: u64) -> Ordering
    ensures { MatchOrdering result (a * b < 0) (a * b ≡ 0) (0 < a * b) }
{
    if a == 0 || b == 0 {
        Ordering::Equal
    } else {
        Ordering::Greater
    }
}
