// RULES 5.6: the vapour pressure and the two saturated densities at a temperature, by themselves. A working that fails
// is refusal 7 (RULES 4.2).
#![tactic(auto)]

ghost use Rattle.std.specs.Prelude.{◌≡◌};
ghost use Rattle.equation.specs.Equation.{of1996};
ghost use Rattle.door_saturation.specs.Saturation.{worked_at, saturated};

use door_limits::{Limits, is_outside};
use equation::{critical_temperature, liquid_density, vapour_density, vapour_pressure};
use num_working::is_finite;
use refusal::Refusal;

// The vapour pressure in Pa, the saturated densities in kg/m³.
#[derive(Clone, Copy)]
pub struct Saturation {
    pub pressure: f64,
    pub vapour: f64,
    pub liquid: f64,
}

#[tactic(auto, unfolding(crate::specs::Saturation::worked_at))]
fn worked_at(t: f64) -> Result<Saturation, Refusal>
    ensures { result ≡ worked_at of1996 t }
{
    let pressure = vapour_pressure(t).ok_or(Refusal(7))?;
    let vapour = vapour_density(t).ok_or(Refusal(7))?;
    let liquid = liquid_density(t).ok_or(Refusal(7))?;
    Ok(Saturation {
        pressure,
        vapour,
        liquid,
    })
}

#[tactic(auto, unfolding(crate::specs::Saturation::saturated))]
pub fn saturated_at(limits: Limits, t: f64) -> Result<Saturation, Refusal>
    ensures { result ≡ saturated of1996 limits t }
{
    if !is_finite(t) {
        return Err(Refusal(3));
    }
    if is_outside(limits.asked.temperature, t) {
        return Err(Refusal(4));
    }
    if t < critical_temperature() {
        return worked_at(t);
    }
    Err(Refusal(4))
}
