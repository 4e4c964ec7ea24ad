// RULES 12: many states at once, for the function that is lent slices of them.
#![tactic(auto)]

ghost use Rattle.std.specs.Prelude.{◌*◌, ◌≡◌, eqb};
ghost use Rattle.equation.specs.Equation.{of1996};
ghost use Rattle.door_limits.specs.Limits.{document01};
ghost use Rattle.door_pressure.specs.PressureDoor.{pressure_door};
ghost use Rattle.door_conductivity.specs.Conducted.{with_conductivity};
ghost use Rattle.interface_figures.specs.Figures.{asked, CarriedIn};
ghost use Rattle.interface_states.specs.States.{fits, StatesIn};

use door_limits::document_01;
use door_pressure::from_pressure;
use interface_figures::put_state;

// The product with ten, which may be too large for a usize, is not worked.
fn is_tenfold(figures: usize, n: usize) -> bool
    ensures { result ≡ eqb figures (10 * n) }
{
    figures / 10 == n && figures % 10 == 0
}

fn lengths_fit(temperatures: usize, pressures: usize, answers: usize, figures: usize) -> bool
    ensures { result ≡ fits temperatures pressures answers figures }
{
    pressures == temperatures && answers == temperatures && is_tenfold(figures, temperatures)
}

// One place, by what is lent for it.
fn put_place(t: f64, p: f64, figures: &mut [f64]) -> u32
    ensures { CarriedIn figures.old figures.new (with_conductivity of1996 (asked figures.old) (pressure_door of1996 document01 t p)) result }
{
    put_state(from_pressure(document_01(), t, p), figures)
}

// 15 and 260 are numbers of the C interface (include/makhroeng.h).
pub fn put_states(ts: &[f64], ps: &[f64], answers: &mut [u32], figures: &mut [f64]) -> u32
    ensures { StatesIn ts.now ps.now answers.old answers.new figures.old figures.new result }
{
    if !lengths_fit(ts.len(), ps.len(), answers.len(), figures.len()) {
        return 15;
    }
    // By index: over chunks of the figures, zipped, the proof didn't close, since of what `iter_mut` lends on nothing is known afterwards.
    for i in 0..ts.len() {
        let at = 10 * i;
        answers[i] = put_place(ts[i], ps[i], &mut figures[at..at + 10]);
    }
    260
}
