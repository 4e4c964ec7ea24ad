// What a door (RULES 5) needs of an equation of state, of that of 1996: the one room of it that the doors know.
#![tactic(auto)]

ghost use Rattle.std.specs.Prelude.{◌≡◌};
ghost use Rattle.equation.specs.Equation.{of1996, curve, pressure_on, state_on};

use eos_constants::span_wagner;
use eos_isotherm::{Isotherm, at_temperature};
use eos_state::{Phase, State};

// The temperature, and what hangs on it alone, worked once and handed on by value. The temperature stands beside the
// isotherm: read out of it apart from the rest, it would have the whole copied at each probe of a search.
#[derive(Clone, Copy)]
pub struct Curve {
    pub t: f64,
    pub isotherm: Isotherm,
}

pub fn critical_temperature() -> f64
    ensures { result ≡ of1996.critical }
{
    span_wagner().temperature
}

pub fn vapour_pressure(t: f64) -> Option<f64>
    ensures { result ≡ of1996.vapour_pressure t }
{
    eos_saturation::vapour_pressure(t)
}

pub fn vapour_density(t: f64) -> Option<f64>
    ensures { result ≡ of1996.vapour_density t }
{
    eos_densities::vapour_density(t)
}

pub fn liquid_density(t: f64) -> Option<f64>
    ensures { result ≡ of1996.liquid_density t }
{
    eos_densities::liquid_density(t)
}

pub fn melting_pressure(t: f64) -> Option<f64>
    ensures { result ≡ of1996.melting_pressure t }
{
    eos_melting::melting_pressure(t)
}

pub fn curve_at(t: f64) -> Curve
    ensures { result ≡ curve t }
{
    Curve {
        t,
        isotherm: at_temperature(t),
    }
}

// The pressure at a density: of1996 .pressure t on the curve of t (proofs/Curves.antt).
pub fn pressure_on(c: Curve, rho: f64) -> Option<f64>
    ensures { result ≡ pressure_on c rho }
{
    eos_pressure::pressure_on(c.t, c.isotherm, rho)
}

// The state at a density: of1996 .state t on the curve of t.
pub fn state_on(c: Curve, phase: Phase, rho: f64) -> Option<State>
    ensures { result ≡ state_on c phase rho }
{
    eos_state::state_on(c.t, c.isotherm, phase, rho)
}

// Of a state, where it is asked for.
pub fn conductivity_at(t: f64, rho: f64) -> Option<f64>
    ensures { result ≡ of1996.conductivity t rho }
{
    eos_conductivity::conductivity_at(t, rho)
}
