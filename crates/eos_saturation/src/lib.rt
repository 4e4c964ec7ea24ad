// The vapour pressure at a temperature (004, eq. (3.13); RULES 4.3 and 4.7 for the powers), and θ, which the saturated
// densities stand on too. A working that fails is refusal 7 (RULES 4.2).
#![tactic(auto)]

ghost use Rattle.std.specs.Prelude.{◌≡◌};
ghost use Rattle.num_formulas.specs.Formula.{num, value, work};
ghost use Rattle.eos_saturation.specs.Saturation.{theta, pressure_sum, vapour_pressure};

use eos_constants::{span_wagner, tau_at};
use num_exponential::exponential::{answer_alone, exponential};
use num_powers::whole_power;
use num_roots::root::{Exponent, root};
use num_working::{checked, plain};

// θ = 1 − T/T_c
pub fn theta_at(t: f64) -> Option<f64>
    ensures { result ≡ work (theta t) }
{
    checked(1.0 - t / span_wagner().temperature)
}

// Eq. (3.13), in plain f64: ln(p/p_c) is τ times this.
fn pressure_sum(theta: f64) -> f64
    ensures { result ≡ value (pressure_sum (num theta)) }
{
    -7.0602087 * theta
        + 1.9391218 * plain(root(theta, Exponent { m: 3, k: 2 }))
        + -1.6463597 * whole_power(theta, 2)
        + -3.2995634 * whole_power(theta, 4)
}

// The one test at the end stands for all, with no `?` on the way: what has failed there is a NaN.
pub fn vapour_pressure(t: f64) -> Option<f64>
    ensures { result ≡ vapour_pressure t }
{
    let sum = pressure_sum(plain(theta_at(t)));
    checked(span_wagner().pressure * plain(answer_alone(exponential(tau_at(t) * sum))))
}
