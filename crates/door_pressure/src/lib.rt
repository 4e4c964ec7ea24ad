// RULES 5.1: the pressure door, the state at a temperature and a pressure. Each step of the definition has a function
// of the same shape and with the same parameters, but for those that only refuse, which from_pressure takes by `?`.
#![tactic(auto)]

mod search;

ghost use Rattle.std.specs.Prelude.{◌≡◌};
ghost use Rattle.equation.specs.Equation.{of1996};
ghost use Rattle.door_pressure.specs.PressureDoor.{scaled, vapour, liquid, beneath, entered, pressure_door};

use crate::search::search_at;
use door_checks::{in_range, not_solid, out_of_box};
use door_limits::{Limits, search_ends};
use eos_state::{Phase, State};
use equation::{
    critical_temperature, liquid_density, melting_pressure, vapour_density, vapour_pressure,
};
use num_working::checked;
use refusal::Refusal;

// So many times a saturated density, one product.
fn scaled(factor: f64, density: Option<f64>) -> Option<f64>
    ensures { result ≡ scaled factor density }
{
    checked(factor * density?)
}

#[tactic(auto, unfolding(crate::specs::PressureDoor::vapour))]
fn as_vapour(t: f64, p: f64) -> Result<State, Refusal>
    ensures { result ≡ vapour of1996 t p }
{
    let ends = search_ends();
    let to = scaled(ends.vapour, vapour_density(t)).ok_or(Refusal(7))?;
    search_at(t, Phase::Vapour, ends.from, to, p)
}

// As as_vapour from the other end: one function of both would take the phase, the factor, the density and which end it is.
#[tactic(auto, unfolding(crate::specs::PressureDoor::liquid))]
fn as_liquid(t: f64, p: f64) -> Result<State, Refusal>
    ensures { result ≡ liquid of1996 t p }
{
    let ends = search_ends();
    let from = scaled(ends.liquid, liquid_density(t)).ok_or(Refusal(7))?;
    search_at(t, Phase::Liquid, from, ends.to, p)
}

// Below the critical temperature.
#[tactic(auto, unfolding(crate::specs::PressureDoor::beneath))]
fn beneath(t: f64, p: f64) -> Result<State, Refusal>
    ensures { result ≡ beneath of1996 t p }
{
    let s = vapour_pressure(t).ok_or(Refusal(7))?;
    if p == s {
        return Err(Refusal(8));
    }
    if p < s {
        return as_vapour(t, p);
    }
    as_liquid(t, p)
}

// Past the checks.
#[tactic(auto, unfolding(crate::specs::PressureDoor::entered))]
fn enter(t: f64, p: f64) -> Result<State, Refusal>
    ensures { result ≡ entered of1996 t p }
{
    if critical_temperature() <= t {
        let ends = search_ends();
        return search_at(t, Phase::Supercritical, ends.from, ends.to, p);
    }
    beneath(t, p)
}

// 3, 4 and 5, then 19, then 6.
#[tactic(auto, unfolding(crate::specs::PressureDoor::unboxed, crate::specs::PressureDoor::thawed, crate::specs::PressureDoor::pressure_door))]
pub fn from_pressure(l: Limits, t: f64, p: f64) -> Result<State, Refusal>
    ensures { result ≡ pressure_door of1996 l t p }
{
    in_range(l.asked.temperature, l.asked.pressure, t, p)?;
    not_solid(melting_pressure(t), p)?;
    out_of_box(l.critical.temperature, l.critical.pressure, t, p)?;
    enter(t, p)
}
