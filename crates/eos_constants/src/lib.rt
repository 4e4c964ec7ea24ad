// The constants of the equation of 1996 (RULES 2.1), each the f64 nearest to what is printed (RULES 4.1); the reduced
// variables δ and τ (RULES 4.9; 004, section 2.1); and the exponents of its roots that 004 prints in another way than
// as the fraction that is worked (RULES 4.7).
#![tactic(auto)]

ghost use Rattle.std.specs.Prelude.{◌≡◌};
ghost use Rattle.eos_constants.specs.Constant.{span_wagner};
ghost use Rattle.eos_constants.specs.Exponent.{worked_as};
ghost use Rattle.eos_constants.specs.Reduced.{delta, tau};
ghost use Rattle.num_formulas.specs.Formula.{value};

use num_roots::root::Exponent;
use num_working::over;

#[derive(Clone, Copy)]
pub struct Constants {
    // the critical temperature, K
    pub temperature: f64,
    // the critical density, kg/m³
    pub density: f64,
    // the gas constant, J/(kg K)
    pub gas: f64,
    // the critical pressure, Pa
    pub pressure: f64,
}

pub fn span_wagner() -> Constants
    ensures { result ≡ span_wagner }
{
    Constants {
        temperature: 304.1282,
        density: 467.6,
        gas: 188.9241,
        pressure: 7377300.0,
    }
}

// δ = ρ/ρ_c, in plain f64.
pub fn delta_at(rho: f64) -> f64
    ensures { result ≡ value (delta rho) }
{
    rho / span_wagner().density
}

// τ = T_c/T, in plain f64.
#[tactic(auto, unfolding(num_formulas::specs::Formula::value))]
pub fn tau_at(t: f64) -> f64
    ensures { result ≡ value (tau t) }
{
    over(span_wagner().temperature, t)
}

// 0.34 and 10/6 of the saturated densities, and b = 0.875 and 0.925 of the non-analytic terms.
#[derive(Clone, Copy)]
pub enum Printed {
    Of0_34,
    Of10_6,
    Of0_875,
    Of0_925,
}

// No `From`: docs/PROMISES.md names this function, and `worked_as_once` speaks of it.
pub fn worked_as(printed: Printed) -> Exponent
    ensures { result ≡ worked_as printed }
{
    match printed {
        Printed::Of0_34 => Exponent { m: 17, k: 50 },
        Printed::Of10_6 => Exponent { m: 5, k: 3 },
        Printed::Of0_875 => Exponent { m: 7, k: 8 },
        Printed::Of0_925 => Exponent { m: 37, k: 40 },
    }
}
