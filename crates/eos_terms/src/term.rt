// What is worked once at a density for all terms of the residual part.
ghost use Rattle.std.specs.Prelude.{◌≡◌};
ghost use Rattle.num_powers.specs.Power as Power;
ghost use Rattle.num_formulas.specs.Formula.{num, value};
ghost use Rattle.eos_non_analytic.specs.Parts.{around, psi_sum};
ghost use Rattle.eos_terms.specs.Term.{bell_sum, exponents, point_by};
ghost use Rattle.eos_terms.specs.Fallen.{at_density};

use crate::fallen::fallen_rows;
use eos_isotherm::Isotherm;
use eos_powers::powers_to_10;
use eos_rows::{Gaussian, NonAnalytic, gaussian_row, non_analytic_row};
use num_exponential::decay::twelve_decays;

// The powers of δ, e^(−δᶜ) for c from 1 to 6, the exponentials of rows 35 to 39, and Ψ of rows 40 and 41 and of row 42.
#[derive(Clone, Copy)]
pub struct Point {
    pub delta: f64,
    pub powers: [f64; 11],
    pub decays: [f64; 6],
    pub bells: [f64; 5],
    pub psis: [f64; 2],
}

// The same, and how many terms fell away, where that is told.
#[derive(Clone, Copy)]
pub struct Told {
    pub point: Point,
    pub fallen: u32,
}

// α·(δ−ε)² + z of a row of 35 to 39, with z for β·(τ−γ)².
#[tactic(auto, unfolding(num_formulas::specs::Formula::value))]
fn bell_exponent(row: Gaussian, delta: f64, z: f64) -> f64
    ensures { result ≡ value (bell_sum (num delta) (num z) row) }
{
    row.alpha * ((delta - row.epsilon) * (delta - row.epsilon)) + z
}

// C·(δ−1)² + z of a row of 40 to 42, with z for D·(τ−1)².
fn psi_exponent(row: NonAnalytic, delta: f64, z: f64) -> f64
    ensures { result ≡ value (psi_sum row (around delta).X (num z)) }
{
    row.kc * ((delta - 1.0) * (delta - 1.0)) + z
}

// The arguments of the twelve exponentials but for their minus sign. Rows 36 and 37 have one bell, rows 40 and 41 one Ψ.
fn exponents(iso: Isotherm, delta: f64, powers: [f64; 11]) -> [f64; 12]
    requires { powers ≡ Power.powers 10 delta }
    ensures { result ≡ exponents iso delta }
{
    let bell = iso.bell;
    [
        powers[1],
        powers[2],
        powers[3],
        powers[4],
        powers[5],
        powers[6],
        bell_exponent(gaussian_row(0), delta, bell[0]),
        bell_exponent(gaussian_row(1), delta, bell[1]),
        bell_exponent(gaussian_row(3), delta, bell[2]),
        bell_exponent(gaussian_row(4), delta, bell[3]),
        psi_exponent(non_analytic_row(0), delta, iso.psi),
        psi_exponent(non_analytic_row(2), delta, iso.psi),
    ]
}

#[tactic(auto, unfolding(crate::specs::Term::point_by))]
fn point_by(delta: f64, powers: [f64; 11], e: [f64; 12]) -> Point
    ensures { result ≡ point_by delta powers e }
{
    Point {
        delta,
        powers,
        decays: [e[0], e[1], e[2], e[3], e[4], e[5]],
        bells: [e[6], e[7], e[7], e[8], e[9]],
        psis: [e[10], e[11]],
    }
}

// For a state, which is told how many terms fell away, or for a pressure, which is not: a plain parameter, as `all` of
// the sums is (`eos_residual`).
pub fn at_density(told: bool, iso: Isotherm, delta: f64) -> Told
    ensures { result ≡ at_density told iso delta }
{
    let powers = powers_to_10(delta);
    let x = exponents(iso, delta, powers);
    let fallen = if told { fallen_rows(x) } else { 0 };
    Told {
        point: point_by(delta, powers, twelve_decays(x)),
        fallen,
    }
}
