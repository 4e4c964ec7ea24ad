// RULES 12: for programs in other languages, the two doors, by a state's eight numbers or by all that it carries, many
// states at once, saturation, the report, the words of a refusal and the version (include/makhroeng.h). Nothing is kept between calls, so
// any number of threads may call at once. A slice is a pointer and a length.
#![tactic(auto)]

ghost use Rattle.std.specs.Prelude.{◌≡◌};
ghost use Rattle.door_limits.specs.Limits.{document01};
ghost use Rattle.equation.specs.Equation.{of1996};
ghost use Rattle.door_pressure.specs.PressureDoor.{pressure_door};
ghost use Rattle.door_density.specs.DensityDoor.{density_door};
ghost use Rattle.door_conductivity.specs.Conducted.{with_conductivity};
ghost use Rattle.door_saturation.specs.Saturation.{saturated};
ghost use Rattle.sheet_read.specs.Form.{in_form};
ghost use Rattle.sheet_write.specs.Writing.{Fitted};
ghost use Rattle.sheet_score.specs.Score.{report};
ghost use Rattle.desk_words.specs.Words.{version, words};
ghost use Rattle.interface_figures.specs.Figures.{asked, AnsweredIn, CarriedIn, SaturatedIn};
ghost use Rattle.interface_states.specs.States.{StatesIn};
ghost use Rattle.interface.specs.Interface.{ReportedIn};

use desk_words::{put_words, version};
use door_density::from_density;
use door_limits::document_01;
use door_pressure::from_pressure;
use door_saturation::saturated_at;
use interface_figures::{put_answer, put_saturated, put_state};
use interface_states::put_states;
use sheet_score::score;

#[unsafe(no_mangle)]
pub extern "C" fn makhroeng_from_pressure(
    temperature: f64,
    pressure: f64,
    figures: &mut [f64],
) -> u32
    ensures { AnsweredIn figures.old figures.new (pressure_door of1996 document01 temperature pressure) result }
{
    put_answer(from_pressure(document_01(), temperature, pressure), figures)
}

#[unsafe(no_mangle)]
pub extern "C" fn makhroeng_from_density(temperature: f64, density: f64, figures: &mut [f64]) -> u32
    ensures { AnsweredIn figures.old figures.new (density_door of1996 document01 temperature density) result }
{
    put_answer(from_density(document_01(), temperature, density), figures)
}

#[unsafe(no_mangle)]
pub extern "C" fn makhroeng_state_from_pressure(
    temperature: f64,
    pressure: f64,
    figures: &mut [f64],
) -> u32
    ensures { CarriedIn figures.old figures.new (with_conductivity of1996 (asked figures.old) (pressure_door of1996 document01 temperature pressure)) result }
{
    put_state(from_pressure(document_01(), temperature, pressure), figures)
}

#[unsafe(no_mangle)]
pub extern "C" fn makhroeng_state_from_density(
    temperature: f64,
    density: f64,
    figures: &mut [f64],
) -> u32
    ensures { CarriedIn figures.old figures.new (with_conductivity of1996 (asked figures.old) (density_door of1996 document01 temperature density)) result }
{
    put_state(from_density(document_01(), temperature, density), figures)
}

#[unsafe(no_mangle)]
pub extern "C" fn makhroeng_states_from_pressure(
    temperatures: &[f64],
    pressures: &[f64],
    answers: &mut [u32],
    figures: &mut [f64],
) -> u32
    ensures { StatesIn temperatures.now pressures.now answers.old answers.new figures.old figures.new result }
{
    put_states(temperatures, pressures, answers, figures)
}

#[unsafe(no_mangle)]
pub extern "C" fn makhroeng_saturation(temperature: f64, figures: &mut [f64]) -> u32
    ensures { SaturatedIn figures.old figures.new (saturated of1996 document01 temperature) result }
{
    put_saturated(saturated_at(document_01(), temperature), figures)
}

// What is refused is 0 here, by the C interface.
#[unsafe(no_mangle)]
pub extern "C" fn makhroeng_report(text: &[u8], out: &mut [u8]) -> u64
    ensures { ReportedIn out.old out.new (report document01 (in_form text.now)) result }
{
    match score(document_01(), text, out) {
        Ok(n) => n as u64,
        Err(_) => 0,
    }
}

#[unsafe(no_mangle)]
pub extern "C" fn makhroeng_words(number: u32, out: &mut [u8]) -> u64
    ensures { Fitted out.old out.new (words number) result }
{
    put_words(number, out) as u64
}

#[unsafe(no_mangle)]
pub extern "C" fn makhroeng_version() -> u32
    ensures { result ≡ version }
{
    version()
}
