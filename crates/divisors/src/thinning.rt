ghost use Rattle.std.specs.Prelude.{◌≡◌, ◌≤◌};
ghost use Rattle.divisors.specs.Dividing.{divided, thin_of};
ghost use Rattle.divisors.specs.Rows.{held};

use crate::fraction::Fraction;
use crate::working::Working;

// Whether another of a list divides a fraction.
fn is_divided(ys: &[Fraction], x: Fraction) -> bool
    ensures { result ≡ divided ys.now x }
{
    ys.iter().any(|y| y.divides_other(x))
}

impl Working {
    // Fractions that another of the list divides go.
    #[tactic(auto, unfolding(crate::specs::Dividing::thin_of))]
    pub(crate) fn thin(&mut self)
        requires { self.old.count ≤ 12 }
        ensures row { held self.new ≡ thin_of (held self.old) }
        ensures count { self.new.count ≤ self.old.count }
    {
        let all = self.as_slice();
        let mut thinned = Working::new();
        for f in all {
            if !is_divided(all, *f) {
                thinned.push(*f);
            }
        }
        *self = thinned;
    }
}
