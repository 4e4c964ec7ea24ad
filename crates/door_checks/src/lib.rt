// RULES 3.1 and 3.3: the checks on what is asked of a door, in two pieces: 3, 4 and 5, and 6; and RULES 5.4, the check
// of the melting line on a pressure, asked or worked.
#![tactic(auto)]

ghost use Rattle.std.specs.Prelude.{◌≡◌, ◌&&◌};
ghost use Rattle.std.specs.Float.Ieee.Scale.{finite};
ghost use Rattle.door_checks.specs.Check.{boxed, number_of, ranged, solid};

use door_limits::{Range, is_outside};
use num_working::is_finite;
use refusal::Refusal;

// The number of a check that was not passed, to be handed on; 0 of one that was. A door hands the refusal itself on, by
// `?`: its number is asked for where it leaves, in a report's lines, for C, or in what a person is told.
pub fn number_of(c: Result<(), Refusal>) -> u8
    ensures { result ≡ number_of c }
{
    match c {
        Err(Refusal(n)) => n,
        Ok(()) => 0,
    }
}

fn are_finite(x: f64, y: f64) -> bool
    ensures { result ≡ finite x && finite y }
{
    is_finite(x) && is_finite(y)
}

// 3, 4 and 5: x is the pressure or the density, with its range.
#[tactic(auto, unfolding(crate::specs::Check::ranged))]
pub fn in_range(temperature: Range, value: Range, t: f64, x: f64) -> Result<(), Refusal>
    ensures { result ≡ ranged temperature value t x }
{
    if !are_finite(t, x) {
        return Err(Refusal(3));
    }
    if is_outside(temperature, t) {
        return Err(Refusal(4));
    }
    if is_outside(value, x) {
        return Err(Refusal(5));
    }
    Ok(())
}

// 19, with the melting pressure; 7 where that failed.
#[tactic(auto, unfolding(crate::specs::Check::solid))]
pub fn not_solid(melting: Option<f64>, p: f64) -> Result<(), Refusal>
    ensures { result ≡ solid melting p }
{
    let m = melting.ok_or(Refusal(7))?;
    if m < p {
        return Err(Refusal(19));
    }
    Ok(())
}

// 6, with the ranges of the critical box.
#[tactic(auto, unfolding(crate::specs::Check::boxed))]
pub fn out_of_box(temperature: Range, value: Range, t: f64, x: f64) -> Result<(), Refusal>
    ensures { result ≡ boxed temperature value t x }
{
    if is_outside(temperature, t) || is_outside(value, x) {
        return Ok(());
    }
    Err(Refusal(6))
}
