// The pressure on an isotherm at a density. What hangs on the temperature alone is worked once, as an isotherm, and
// handed on by value, so that no probe of a search works it again; the temperature itself stands beside it.
#![tactic(auto)]

ghost use Rattle.std.specs.Prelude.{◌≡◌};
ghost use Rattle.num_formulas.specs.Formula.{value};
ghost use Rattle.eos_pressure.specs.Pressure.{pressure_formula, pressure_on};

use eos_constants::{delta_at, span_wagner};
use eos_isotherm::Isotherm;
use eos_residual::sum::slope_at;
use num_working::checked;

// p = ((ρ·R)·T)·(1 + δφ_δ), in plain f64, with a for δφ_δ: of a pressure alone and of a state.
pub fn pressure_of(t: f64, rho: f64, a: f64) -> f64
    ensures { result ≡ value (pressure_formula t rho a) }
{
    rho * span_wagner().gas * t * (1.0 + a)
}

pub fn pressure_on(t: f64, iso: Isotherm, rho: f64) -> Option<f64>
    ensures { result ≡ pressure_on t iso rho }
{
    let delta = checked(delta_at(rho))?;
    let a = slope_at(iso, delta)?;
    checked(pressure_of(t, rho, a))
}
