// The saturated densities at a temperature (004, eqs. (3.14) and (3.15); RULES 4.3 and 4.7 for the powers). A working
// that fails is refusal 7 (RULES 4.2).
#![tactic(auto)]

ghost use Rattle.std.specs.Prelude.{◌≡◌};
ghost use Rattle.num_working.specs.Working.{plain};
ghost use Rattle.num_roots.specs.Root as Root;
ghost use Rattle.num_formulas.specs.Formula.{num, value};
ghost use Rattle.eos_densities.specs.Density.{liquid_sum, vapour_sum, density_of, liquid_density, vapour_density};

use eos_constants::{Printed, span_wagner, worked_as};
use eos_saturation::theta_at;
use num_exponential::exponential::{answer_alone, exponential};
use num_powers::whole_power;
use num_roots::root::{Exponent, root};
use num_working::{checked, plain};

// A root in a formula that is tested at its end.
fn to(x: f64, e: Exponent) -> f64
    ensures { result ≡ plain (Root.root e x) }
{
    plain(root(x, e))
}

// Eq. (3.14), in plain f64.
fn liquid_sum(theta: f64) -> f64
    ensures { result ≡ value (liquid_sum (num theta)) }
{
    1.9245108 * to(theta, worked_as(Printed::Of0_34))
        + -0.62385555 * to(theta, Exponent { m: 1, k: 2 })
        + -0.32731127 * to(theta, worked_as(Printed::Of10_6))
        + 0.39245142 * to(theta, Exponent { m: 11, k: 6 })
}

// Eq. (3.15), in plain f64.
fn vapour_sum(theta: f64) -> f64
    ensures { result ≡ value (vapour_sum (num theta)) }
{
    -1.7074879 * to(theta, worked_as(Printed::Of0_34))
        + -0.82274670 * to(theta, Exponent { m: 1, k: 2 })
        + -4.6008549 * theta
        + -10.111178 * (whole_power(theta, 2) * to(theta, Exponent { m: 1, k: 3 }))
        + -29.742252 * (whole_power(theta, 4) * to(theta, Exponent { m: 2, k: 3 }))
}

// The density whose logarithm over the critical density is the sum. One test stands for all: what has failed on the way
// is a NaN. A density that is not above 0 is refusal 7 too (RULES 5).
fn density_of(sum: f64) -> Option<f64>
    ensures { result ≡ density_of (num sum) }
{
    let density = checked(span_wagner().density * plain(answer_alone(exponential(sum))))?;
    (0.0 < density).then_some(density)
}

// Two of one line each, which a function that takes the sum would not shorten.
pub fn liquid_density(t: f64) -> Option<f64>
    ensures { result ≡ liquid_density t }
{
    density_of(liquid_sum(plain(theta_at(t))))
}

pub fn vapour_density(t: f64) -> Option<f64>
    ensures { result ≡ vapour_density t }
{
    density_of(vapour_sum(plain(theta_at(t))))
}
