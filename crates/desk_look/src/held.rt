// RULES 14.3 and 14.4: a line's mass with the density and the phase of its state, or weighed, or its refusal; whether that
// is more than a cylinder is filled with; and what is to spare or missing.
ghost use Rattle.std.specs.Prelude.{◌≡◌};
ghost use Rattle.desk_look.specs.Held.{held, overfull, seen, look, heavy, margin};

use door_density::from_density;
use door_limits::Limits;
use door_pressure::from_pressure;
use eos_state::{Phase, State};
use refusal::Refusal;
use sheet_line::line::{Line, Reading};
use sheet_mass::Milligrams;
use sheet_weigh::is_volume;

// With the density in kg/m³.
#[derive(Clone, Copy)]
pub struct Held {
    pub mg: Milligrams,
    pub rho: f64,
    pub phase: Phase,
}

// On a scale, and whether it is more than its cylinder is filled with.
#[derive(Clone, Copy)]
pub struct Weight {
    pub mg: Milligrams,
    pub overfull: bool,
}

// What is said of a line is one of three: no Result, since a refusal is said as the others are.
#[derive(Clone, Copy)]
pub enum Look {
    Mass(Held),
    Weighed(Weight),
    Refused(Refusal),
}

// In mg.
#[derive(Clone, Copy)]
pub enum Margin {
    Spare(u64),
    Missing(u64),
}

fn held_with(mg: Milligrams, a: Result<State, Refusal>) -> Look
    ensures { result ≡ held mg a }
{
    match a {
        Ok(s) => Look::Mass(Held {
            mg,
            rho: s.rho,
            phase: s.phase,
        }),
        Err(n) => Look::Refused(n),
    }
}

// Above 750 mg a mL.
fn is_overfull(mg: Milligrams, volume: Option<u64>) -> bool
    ensures { result ≡ overfull mg volume }
{
    volume.is_some_and(|v| is_volume(v) && mg.0 > 750 * v)
}

// With the state that the milligrams are of, by the door of the reading's kind, or that they were weighed.
fn seen_by(limits: Limits, mg: Milligrams, l: Line<f64>) -> Look
    ensures { result ≡ seen limits mg l.temperature l.volume l.reading }
{
    match (l.reading, l.temperature) {
        (Reading::Pressure(p), Some(t)) => held_with(mg, from_pressure(limits, t, p)),
        (Reading::Density(d), Some(t)) => held_with(mg, from_density(limits, t, d)),
        (Reading::Weighed(_), _) => Look::Weighed(Weight {
            mg,
            overfull: is_overfull(mg, l.volume),
        }),
        _ => Look::Refused(Refusal(1)),
    }
}

// What came of the line decides.
#[tactic(auto, unfolding(crate::specs::Held::look))]
pub fn look_at(limits: Limits, w: Result<Milligrams, Refusal>, l: Line<f64>) -> Look
    ensures { result ≡ look limits w l }
{
    match w {
        Ok(mg) => seen_by(limits, mg, l),
        Err(refused) => Look::Refused(refused),
    }
}

// Above 750 kg/m³.
pub fn is_heavy(l: Look) -> bool
    ensures { result ≡ heavy l }
{
    match l {
        Look::Mass(h) => 750.0 < h.rho,
        Look::Weighed(x) => x.overfull,
        Look::Refused(_) => false,
    }
}

#[tactic(auto, unfolding(crate::specs::Held::margin))]
pub fn margin_of(mg: u64, need: u64) -> Margin
    ensures { result ≡ margin mg need }
{
    if mg >= need {
        Margin::Spare(mg - need)
    } else {
        Margin::Missing(need - mg)
    }
}
