// What hangs on the temperature alone, in plain f64, worked once for a search (RULES 5.1) and handed on by value.
#![tactic(auto)]

ghost use Rattle.std.specs.Prelude.{◌≡◌, ◌<◌, get_or};
ghost use Rattle.num_working.specs.Working.{plain};
ghost use Rattle.num_roots.specs.Root.{root};
ghost use Rattle.num_formulas.specs.Formula.{value};
ghost use Rattle.eos_rows.specs.Column.{tau_quarters};
ghost use Rattle.eos_isotherm.specs.Isotherm.{half, quarters, tau_powers, bell_tau, four_bells, psi_tau, isotherm};

use eos_constants::tau_at;
use eos_powers::{powers_to_3, powers_to_28};
use eos_rows::columns::tau_quarters;
use eos_rows::{Gaussian, NonAnalytic, gaussian_row, non_analytic_row};
use num_roots::root::{Exponent, root};
use num_working::plain;

#[derive(Clone, Copy)]
pub struct Isotherm {
    pub tau: f64,
    // τᵗ of rows 1 to 39
    pub powers: [f64; 39],
    // β·(τ−γ)² of rows 35, 36 and 37, 38, 39
    pub bell: [f64; 4],
    // D·(τ−1)², one number for rows 40 to 42
    pub psi: f64,
}

// The exponent of τ in the row at place i of rows 1 to 39, in quarters: of the column, or of rows 35 to 39 behind it.
fn quarters_at(column: [u8; 34], i: usize) -> u8
    requires column_value { column ≡ tau_quarters }
    requires i_bound { i < 39 }
    ensures { result ≡ get_or quarters i 0 }
{
    if i < 34 {
        column[i]
    } else {
        gaussian_row(i - 34).q
    }
}

// τᵗ of rows 1 to 39: always the one product of a whole power of τ and one of its quarter root.
fn tau_powers(tau: f64, quarter: f64) -> [f64; 39]
    ensures { result ≡ tau_powers tau quarter }
{
    let t = powers_to_28(tau);
    let q = powers_to_3(quarter);
    let column = tau_quarters();
    let mut powers = [0.0; 39];
    for (i, power) in powers.iter_mut().enumerate() {
        let j = quarters_at(column, i) as usize;
        *power = t[j / 4] * q[j % 4];
    }
    powers
}

fn half_of(x: f64) -> f64
    ensures { result ≡ plain (root half x) }
{
    plain(root(x, Exponent { m: 1, k: 2 }))
}

// β·(τ−γ)² of a row of 35 to 39.
#[tactic(auto, unfolding(num_formulas::specs::Formula::value, crate::specs::Isotherm::bell_tau))]
fn bell_of(row: Gaussian, tau: f64) -> f64
    ensures { result ≡ value (bell_tau tau row) }
{
    row.beta * ((tau - row.gamma) * (tau - row.gamma))
}

// Of rows 35, 36 and 37, 38, 39.
fn four_bells(tau: f64) -> [f64; 4]
    ensures { result ≡ four_bells tau }
{
    // `[0, 1, 3, 4].map(..)` was tried, and its proof didn't close.
    [
        bell_of(gaussian_row(0), tau),
        bell_of(gaussian_row(1), tau),
        bell_of(gaussian_row(3), tau),
        bell_of(gaussian_row(4), tau),
    ]
}

// D·(τ−1)² of a row of 40 to 42.
fn psi_of(row: NonAnalytic, tau: f64) -> f64
    ensures { result ≡ value (psi_tau tau row) }
{
    row.kd * ((tau - 1.0) * (tau - 1.0))
}

pub fn at_temperature(t: f64) -> Isotherm
    ensures { result ≡ isotherm t }
{
    let tau = tau_at(t);
    Isotherm {
        tau,
        powers: tau_powers(tau, half_of(half_of(tau))),
        bell: four_bells(tau),
        psi: psi_of(non_analytic_row(0), tau),
    }
}
