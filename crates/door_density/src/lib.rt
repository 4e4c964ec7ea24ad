// RULES 5.2: the density door, the state at a temperature and a density. Each step of the definition has a function of
// the same shape and with the same parameters, but for those that only refuse, which from_density takes by `?`.
#![tactic(auto)]

ghost use Rattle.std.specs.Prelude.{◌≡◌};
ghost use Rattle.equation.specs.Equation.{of1996};
ghost use Rattle.door_density.specs.DensityDoor.{in_phase, beneath, entered, density_door};

use door_answers::answer_with;
use door_checks::{in_range, not_solid, out_of_box};
use door_limits::{Limits, is_outside};
use eos_state::{Phase, State};
use equation::{
    critical_temperature, curve_at, liquid_density, melting_pressure, pressure_on, state_on,
    vapour_density,
};
use refusal::Refusal;

#[tactic(auto, using(equation::proofs::Curves::on_curve, equation::proofs::Curves::state_on_curve), unfolding(crate::specs::DensityDoor::in_phase))]
fn in_phase(l: Limits, phase: Phase, t: f64, rho: f64) -> Result<State, Refusal>
    ensures { result ≡ in_phase of1996 l phase t rho }
{
    let curve = curve_at(t);
    let p = pressure_on(curve, rho).ok_or(Refusal(7))?;
    if is_outside(l.asked.pressure, p) {
        return Err(Refusal(5));
    }
    not_solid(melting_pressure(t), p)?;
    answer_with(state_on(curve, phase, rho))
}

// Below the critical temperature.
#[tactic(auto, unfolding(crate::specs::DensityDoor::beneath))]
fn beneath(l: Limits, t: f64, rho: f64) -> Result<State, Refusal>
    ensures { result ≡ beneath of1996 l t rho }
{
    let vapour = vapour_density(t).ok_or(Refusal(7))?;
    let liquid = liquid_density(t).ok_or(Refusal(7))?;
    if vapour < rho {
        if rho < liquid {
            return Err(Refusal(8));
        }
        return in_phase(l, Phase::Liquid, t, rho);
    }
    in_phase(l, Phase::Vapour, t, rho)
}

// Past the checks.
#[tactic(auto, unfolding(crate::specs::DensityDoor::entered))]
fn enter(l: Limits, t: f64, rho: f64) -> Result<State, Refusal>
    ensures { result ≡ entered of1996 l t rho }
{
    if critical_temperature() <= t {
        return in_phase(l, Phase::Supercritical, t, rho);
    }
    beneath(l, t, rho)
}

// 3, 4 and 5, then 6.
#[tactic(auto, unfolding(crate::specs::DensityDoor::unboxed, crate::specs::DensityDoor::density_door))]
pub fn from_density(l: Limits, t: f64, rho: f64) -> Result<State, Refusal>
    ensures { result ≡ density_door of1996 l t rho }
{
    in_range(l.asked.temperature, l.asked.density, t, rho)?;
    out_of_box(l.critical.temperature, l.critical.density, t, rho)?;
    enter(l, t, rho)
}
