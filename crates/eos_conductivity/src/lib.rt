// The thermal conductivity at a temperature and a density (002; docs/ARRANGEMENT.md, section 13): that of the dilute
// gas, the residual, and the empirical critical enhancement. A working that fails is refusal 7 (RULES 4.2).
#![tactic(auto)]

ghost use Rattle.std.specs.Prelude.{◌≡◌};
ghost use Rattle.num_formulas.specs.Formula.{num, value};
ghost use Rattle.eos_conductivity.specs.Conductivity.{reduced, dilute, residual, exponent, enhancement, background, conductivity_at, dilute_at, background_at};

use eos_constants::{delta_at, span_wagner};
use eos_powers::powers_to_10;
use num_exponential::exponential::{answer_alone, exponential};
use num_roots::root::{Exponent, root};
use num_working::{checked, over, plain};

// T_r = T/T_c, in plain f64, as are all of these but the last three.
fn reduced_at(t: f64) -> f64
    ensures { result ≡ value (reduced t) }
{
    t / span_wagner().temperature
}

// Eq. (3), in mW/(m K).
fn dilute(r: f64) -> f64
    ensures { result ≡ value (dilute (num r)) }
{
    let r2 = r * r;
    let sum = 1.51874307e-2
        + over(2.80674040e-2, r)
        + over(2.28564190e-2, r2)
        + over(-7.41624210e-3, r2 * r);
    over(plain(root(r, Exponent { m: 1, k: 2 })), sum)
}

// Eq. (4), in W/(m K), with the powers of δ that the rows of a state have too. Written out: the sum begins with its first
// term, which a loop over Table 4 would have apart.
fn residual(r: f64, delta: f64) -> f64
    ensures { result ≡ value (residual (num r) (num delta)) }
{
    let p = powers_to_10(delta);
    (1.00128e-2 + 4.30829e-3 * r) * p[1]
        + (5.60488e-2 + -3.58563e-2 * r) * p[2]
        + (-8.11620e-2 + 6.71480e-2 * r) * p[3]
        + (6.24337e-2 + -5.22855e-2 * r) * p[4]
        + (-2.06336e-2 + 1.74571e-2 * r) * p[5]
        + (2.53248e-3 + -1.96414e-3 * r) * p[6]
}

// What e is raised to in eq. (10), with t for T_r − 1 and d for δ − 1.
fn exponent(t: f64, d: f64) -> f64
    ensures { result ≡ value (exponent (num t) (num d)) }
{
    let d2 = d * d;
    8.865 * t + 4.16 * d2 + 2.302 * t * d - d2 * d
}

// Eq. (10), in mW/(m K). What the exponential says is dropped.
fn enhancement(t: f64, d: f64) -> f64
    ensures { result ≡ value (enhancement (num t) (num d)) }
{
    let e = plain(answer_alone(exponential(exponent(t, d))));
    over(-17.47 - 44.88 * t, 0.8563 - e - 0.4503 * d - 7.197 * t)
}

// The first two of eq. (1), in W/(m K).
fn background(r: f64, delta: f64) -> f64
    ensures { result ≡ value (background (num r) (num delta)) }
{
    dilute(r) / 1000.0 + residual(r, delta)
}

// Eq. (1), in W/(m K). The one test at the end stands for all.
pub fn conductivity_at(t: f64, rho: f64) -> Option<f64>
    ensures { result ≡ conductivity_at t rho }
{
    let r = reduced_at(t);
    let delta = delta_at(rho);
    checked(background(r, delta) + enhancement(r - 1.0, delta - 1.0) / 1000.0)
}

// Without the enhancement, as a table of 002 has it.
pub fn background_at(t: f64, rho: f64) -> Option<f64>
    ensures { result ≡ background_at t rho }
{
    checked(background(reduced_at(t), delta_at(rho)))
}

// Of the dilute gas alone, in mW/(m K), as a table of 002 has it.
pub fn dilute_at(t: f64) -> Option<f64>
    ensures { result ≡ dilute_at t }
{
    checked(dilute(reduced_at(t)))
}
