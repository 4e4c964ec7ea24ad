// RULES 4.9: the state on an isotherm at a density (004, Table 3; docs/ARRANGEMENT.md, sections 9 and 12), eight numbers,
// a phase and how many terms fell away, or a failure.
#![tactic(auto, unfolding(num_formulas::specs::Formula::value))]

ghost use Rattle.std.specs.Prelude.{◌≡◌};
ghost use Rattle.num_formulas.specs.Formula.{value};
ghost use Rattle.eos_pressure.specs.Pressure.{pressure_formula};
ghost use Rattle.eos_state.specs.State.{s, z, g, k, thermal, energy, enthalpy, heat_v, heat_p, sound, state_of, state_on};

use eos_brackets::Five;
use eos_constants::{delta_at, span_wagner};
use eos_ideal::ideal_part;
use eos_isotherm::Isotherm;
use eos_pressure::pressure_of;
use eos_residual::sum::residual_part;
use num_roots::root::{Exponent, root};
use num_working::{checked, over, plain};

#[derive(Clone, Copy)]
pub enum Phase {
    Vapour,
    Liquid,
    Supercritical,
}

// T, p, ρ, u, h, cᵥ, cₚ and the sound speed, in the units of RULES 4.9, the phase, and how many terms fell away.
#[derive(Clone, Copy)]
pub struct State {
    pub t: f64,
    pub p: f64,
    pub rho: f64,
    pub u: f64,
    pub h: f64,
    pub cv: f64,
    pub cp: f64,
    pub w: f64,
    pub phase: Phase,
    pub fallen: u32,
}

// What Table 3 is worked from, in plain f64: T, ρ, the residual part's sums, and i1 = τφ°_τ and i2 = τ²φ°_ττ of the ideal
// part. z, g, k and R·T are as docs/ARRANGEMENT.md, section 9, has them.
#[derive(Clone, Copy)]
struct Parts {
    t: f64,
    rho: f64,
    sums: Five,
    i1: f64,
    i2: f64,
}

impl Parts {
    fn s(self) -> f64
        ensures { result ≡ value (s self.sums self.i1) }
    {
        self.i1 + self.sums.t
    }

    fn z(self) -> f64
        ensures { result ≡ value (z self.sums self.i2) }
    {
        self.i2 + self.sums.tt
    }

    fn g(self) -> f64
        ensures { result ≡ value (g self.sums) }
    {
        1.0 + self.sums.d - self.sums.dt
    }

    fn k(self) -> f64
        ensures { result ≡ value (k self.sums) }
    {
        1.0 + 2.0 * self.sums.d + self.sums.dd
    }

    fn thermal(self) -> f64
        ensures { result ≡ value (thermal self.t) }
    {
        span_wagner().gas * self.t
    }

    fn pressure(self) -> f64
        ensures { result ≡ value (pressure_formula self.t self.rho self.sums.d) }
    {
        pressure_of(self.t, self.rho, self.sums.d)
    }

    fn energy(self) -> f64
        ensures { result ≡ value (energy self.t self.sums self.i1) }
    {
        self.thermal() * self.s()
    }

    fn enthalpy(self) -> f64
        ensures { result ≡ value (enthalpy self.t self.sums self.i1) }
    {
        self.thermal() * (1.0 + self.s() + self.sums.d)
    }

    fn heat_v(self) -> f64
        ensures { result ≡ value (heat_v self.sums self.i2) }
    {
        span_wagner().gas * -self.z()
    }

    fn heat_p(self) -> f64
        ensures { result ≡ value (heat_p self.sums self.i2) }
    {
        let g = self.g();
        span_wagner().gas * (-self.z() + over(g * g, self.k()))
    }

    fn sound_speed(self) -> f64
        ensures { result ≡ value (sound self.t self.sums self.i2) }
    {
        let g = self.g();
        let square = self.thermal() * (self.k() - over(g * g, self.z()));
        plain(root(square, Exponent { m: 1, k: 2 }))
    }

    // Each number tested.
    fn state(self, phase: Phase, fallen: u32) -> Option<State>
        ensures { result ≡ state_of phase fallen self.t self.rho self.sums self.i1 self.i2 }
    {
        Some(State {
            t: self.t,
            p: checked(self.pressure())?,
            rho: self.rho,
            u: checked(self.energy())?,
            h: checked(self.enthalpy())?,
            cv: checked(self.heat_v())?,
            cp: checked(self.heat_p())?,
            w: checked(self.sound_speed())?,
            phase,
            fallen,
        })
    }
}

pub fn state_on(t: f64, iso: Isotherm, phase: Phase, rho: f64) -> Option<State>
    ensures { result ≡ state_on t iso phase rho }
{
    let delta = checked(delta_at(rho))?;
    let residual = residual_part(iso, delta);
    let sums = residual.sums?;
    let ideal = ideal_part(iso.tau);
    let parts = Parts {
        t,
        rho,
        sums,
        i1: ideal.first?,
        i2: ideal.second?,
    };
    parts.state(phase, residual.fallen)
}
