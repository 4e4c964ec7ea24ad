// RULES 4.4: e⁻ˣ of twelve numbers side by side, for a formula that goes on in plain f64. One exponential is a chain of
// 38 operations, each of which waits for the one before it; twelve chains fill each other's waits.
ghost use Rattle.std.specs.Prelude.{◌≡◌, T, map};
ghost use Rattle.std.specs.Float.{binary64};
ghost use Rattle.std.specs.Float.Ieee.{div, neg};
ghost use Rattle.num_working.specs.Number.{whole};
ghost use Rattle.num_exponential.specs.Decay.{decay, every, in_series};
ghost use Rattle.num_exponential.specs.Exponential.{exponential, fell};

use crate::exponential::{answer_alone, exponential, in_series};
use crate::lockstep::{chains, each, ten_squarings};
use num_working::{is_finite, plain};

fn decay(x: f64) -> f64
    ensures { result ≡ decay x }
{
    plain(answer_alone(exponential(-x)))
}

fn all_in_series(x: [f64; 12]) -> bool
    ensures { result ≡ every in_series x }
{
    x.iter().all(|v| in_series(*v))
}

fn by_1024(x: [f64; 12]) -> [f64; 12]
    ensures { result ≡ map (λ v. div binary64 v (whole 1024)) x }
{
    each(x, |v| v / 1024.0)
}

// With no branch on an x, and with no test for a number that is not finite: every step stays between 0 and 1.
fn side_by_side(x: [f64; 12]) -> [f64; 12]
    requires { T (every in_series x) }
    ensures { result ≡ map decay x }
{
    ten_squarings(chains(by_1024(x)))
}

fn one_by_one(x: [f64; 12]) -> [f64; 12]
    ensures { result ≡ map decay x }
{
    each(x, decay)
}

// What each says is dropped.
pub fn twelve_decays(x: [f64; 12]) -> [f64; 12]
    ensures { result ≡ map decay x }
{
    if all_in_series(x) {
        return side_by_side(x);
    }
    one_by_one(x)
}

// What the exponential of −x says, for those who pass it on: it hangs on x alone, and can be told before the answer is
// worked.
pub fn falls(x: f64) -> bool
    ensures { result ≡ fell (exponential (neg x)) }
{
    if is_finite(x) { -x < -36.0 } else { false }
}
