// RULES 12: what the functions for C hand over in the figures that a caller lends, and the number that they return.
#![tactic(auto)]

ghost use Rattle.std.specs.Prelude.{◌≡◌, ◌≤◌, ◌++◌, Ok, drop, length, set};
ghost use Rattle.equation.specs.Equation.{of1996};
ghost use Rattle.door_conductivity.specs.Conducted.{with_conductivity};
ghost use Rattle.interface_figures.specs.Figures.{phase_number, asked, AnsweredIn, CarriedIn, CountedIn, SaturatedIn};

use door_answers::refusal_number;
use door_checks::number_of;
use door_conductivity::{Carried, with_conductivity};
use door_saturation::Saturation;
use eos_state::{Phase, State};
use refusal::Refusal;

// The numbers, as all that are returned here, are those of the C interface (include/makhroeng.h).
fn phase_number(phase: Phase) -> u32
    ensures { result ≡ phase_number phase }
{
    match phase {
        Phase::Vapour => 256,
        Phase::Liquid => 257,
        Phase::Supercritical => 258,
    }
}

// Numbers over the front of the figures.
fn put_front<const N: usize>(numbers: [f64; N], figures: &mut [f64])
    requires { N ≤ length figures.old }
    ensures { figures.new ≡ numbers.entry ++ drop N figures.old }
{
    figures[..N].copy_from_slice(&numbers);
}

// Of a door: its eight numbers.
#[tactic(auto, unfolding(crate::specs::Figures::with_eight))]
pub fn put_answer(a: Result<State, Refusal>, figures: &mut [f64]) -> u32
    ensures { AnsweredIn figures.old figures.new a result }
{
    if figures.len() < 8 {
        return 15;
    }
    match a {
        Ok(s) => {
            put_front([s.t, s.p, s.rho, s.u, s.h, s.cv, s.cp, s.w], figures);
            phase_number(s.phase)
        }
        Err(_) => u32::from(refusal_number(a)),
    }
}

// A figure, where it is lent.
fn put_at(i: usize, x: f64, figures: &mut [f64])
    ensures { figures.new ≡ set figures.old i x }
{
    if i < figures.len() {
        figures[i] = x;
    }
}

// Behind the eight numbers the count of the terms that fell away.
fn put_counted(a: Result<State, Refusal>, figures: &mut [f64]) -> u32
    ensures { CountedIn figures.old figures.new a result }
{
    let number = put_answer(a, figures);
    let Ok(s) = a else {
        return number;
    };
    put_at(8, f64::from(s.fallen), figures);
    number
}

// Behind these what the state carries on request.
fn put_carried(c: Carried, figures: &mut [f64]) -> u32
    ensures { CarriedIn figures.old figures.new (Ok c) result }
{
    let number = put_counted(Ok(c.state), figures);
    let Some(x) = c.conductivity else {
        return number;
    };
    put_at(9, x, figures);
    number
}

fn put_conducted(c: Result<Carried, Refusal>, figures: &mut [f64]) -> u32
    ensures { CarriedIn figures.old figures.new c result }
{
    match c {
        Ok(x) => put_carried(x, figures),
        Err(n) => put_counted(Err(n), figures),
    }
}

// All that a state carries: whoever lends ten asks for the conductivity.
#[tactic(auto, unfolding(crate::specs::Figures::asked))]
pub fn put_state(a: Result<State, Refusal>, figures: &mut [f64]) -> u32
    ensures { CarriedIn figures.old figures.new (with_conductivity of1996 (asked figures.old) a) result }
{
    let asked = figures.len() >= 10;
    put_conducted(with_conductivity(asked, a), figures)
}

// As put_answer: one function of both would take the numbers, how many they are and the number for C, and say less.
#[tactic(auto, unfolding(crate::specs::Figures::with_three))]
pub fn put_saturated(s: Result<Saturation, Refusal>, figures: &mut [f64]) -> u32
    ensures { SaturatedIn figures.old figures.new s result }
{
    if figures.len() < 3 {
        return 15;
    }
    match s {
        Ok(x) => {
            put_front([x.pressure, x.vapour, x.liquid], figures);
            259
        }
        Err(refusal) => u32::from(number_of(Err(refusal))),
    }
}
