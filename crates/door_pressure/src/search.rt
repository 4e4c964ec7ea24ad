// RULES 4.5 and 5.1: the search for the density at which the pressure worked on a curve passes the one asked for.
// Nothing is taken of the curve's shape, so each probe is where the definition's is (num_halving, specs/Halving.antt).
ghost use Rattle.std.specs.Prelude.{◌≡◌, T};
ghost use Rattle.std.specs.Float.{binary64};
ghost use Rattle.std.specs.Float.Ieee.{fits, of_bits};
ghost use Rattle.num_working.specs.Number.{nonneg};
ghost use Rattle.equation.specs.Equation.{of1996, pressure_on};
ghost use Rattle.door_pressure.specs.Search.{figure, searched};
ghost use Rattle.equation.proofs.Curves.{pressure_finite};

use door_answers::answer_with;
use eos_state::{Phase, State};
use equation::{Curve, curve_at, pressure_on, state_on};
use num_halving::{Missed, Place, Probed, halve};
use refusal::Refusal;

// The pressure at a density on a curve, as a figure that a halving probes.
#[derive(Clone, Copy)]
struct Pressure {
    curve: Curve,
}

impl Probed for Pressure {
    ghost figure = { λ s. figure (pressure_on s.curve) };

    ghost sound = { λ s b x e. pressure_finite s.curve (of_bits binary64 b) x e };

    fn at(&self, place: Place) -> Option<f64> {
        pressure_on(self.curve, f64::from_bits(place.bits))
    }
}

// Over densities that have no minus sign.
#[tactic(auto, using(equation::proofs::Curves::on_curve, equation::proofs::Curves::state_on_curve, crate::proofs::Searches::bits_below), unfolding(crate::specs::Search::searched))]
pub(crate) fn search_at(t: f64, phase: Phase, from: f64, to: f64, p: f64) -> Result<State, Refusal>
    requires from_nonneg { T (nonneg from) }
    requires to_nonneg { T (nonneg to) }
    requires to_fits { T (fits binary64 to) }
    ensures { result ≡ searched (of1996.pressure t) (of1996.state t phase) from to p }
{
    let pressure = Pressure { curve: curve_at(t) };
    let top = Place {
        bits: f64::to_bits(to),
    };
    match halve(&pressure, p, f64::to_bits(from), top) {
        Ok(b) => answer_with(state_on(pressure.curve, phase, f64::from_bits(b))),
        Err(Missed::Nowhere) => Err(Refusal(9)),
        Err(Missed::Broke) => Err(Refusal(7)),
    }
}
