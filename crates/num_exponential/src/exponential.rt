// RULES 4.4: the exponential, and what it says with its answer.
ghost use Rattle.std.specs.Prelude.{◌≡◌, T};
ghost use Rattle.std.specs.Float.Ieee.{le};
ghost use Rattle.num_working.specs.Number.{decimal, whole};
ghost use Rattle.num_working.specs.Working.{checked};
ghost use Rattle.num_exponential.specs.Exponential.{answer_alone, exponential, falling, series, squared, steps};
ghost use Rattle.num_exponential.specs.Decay.{in_series};

use num_working::{checked, is_finite};

// An answer, and whether its argument was below −36.
#[derive(Clone, Copy)]
pub struct Said {
    pub value: f64,
    pub fallen: bool,
}

// s becomes 1 − (y/k)·s for k = 14, 13, .., 1.
fn series(y: f64) -> f64
    ensures { checked result ≡ series (checked y) 14 (checked (whole 1)) }
{
    let mut s = 1.0;
    for k in (1..15u32).rev() {
        s = 1.0 - (y / (k as f64)) * s;
    }
    s
}

// The same with six divisions that are none by a power of two: for such a y each y/(k·2ᵗ) is in the normal range, and
// is y/k times 2⁻ᵗ bit for bit (`halved`, num_laws/proofs/Halves.antt).
fn eased(y: f64) -> f64
    requires { T (le (decimal 1 250) y) × T (le y (whole 1)) }
    ensures { checked result ≡ series (checked y) 14 (checked (whole 1)) }
{
    let third = y / 3.0;
    let fifth = y / 5.0;
    let seventh = y / 7.0;
    let s = 1.0 - (seventh * 0.5) * 1.0;
    let s = 1.0 - (y / 13.0) * s;
    let s = 1.0 - (third * 0.25) * s;
    let s = 1.0 - (y / 11.0) * s;
    let s = 1.0 - (fifth * 0.5) * s;
    let s = 1.0 - (y / 9.0) * s;
    let s = 1.0 - (y / 8.0) * s;
    let s = 1.0 - seventh * s;
    let s = 1.0 - (third * 0.5) * s;
    let s = 1.0 - fifth * s;
    let s = 1.0 - (y / 4.0) * s;
    let s = 1.0 - third * s;
    let s = 1.0 - (y / 2.0) * s;
    1.0 - (y / 1.0) * s
}

// s becomes s·s, ten times.
fn squared(s: f64) -> f64
    ensures { checked result ≡ squared 10 (checked s) }
{
    let mut s = s;
    // n is not read: the proof names it.
    for n in (1..11u32).rev() {
        s = s * s;
    }
    s
}

// x from 10⁻²⁰⁰ to 700, where a quotient can be worked in another way (`eased`, and `chains` of the twelve).
pub(crate) fn in_series(x: f64) -> bool
    ensures { result ≡ in_series x }
{
    1e-200 <= x && x <= 700.0
}

// Step 4: eˣ for x from −700 to 0.
fn falling(x: f64) -> Option<f64>
    ensures { result ≡ falling x }
{
    let y = (-x) / 1024.0;
    if in_series(-x) {
        return checked(squared(eased(y)));
    }
    checked(squared(series(y)))
}

// The five steps in their order.
fn steps(x: f64) -> Option<f64>
    ensures { result ≡ steps x }
{
    if !is_finite(x) {
        return None;
    }
    if x < -700.0 {
        return Some(0.0);
    }
    if 700.0 < x {
        return None;
    }
    if x <= 0.0 {
        return falling(x);
    }
    let e = falling(-x)?;
    checked(1.0 / e)
}

pub fn exponential(x: f64) -> Option<Said>
    ensures { result ≡ exponential x }
{
    let value = steps(x)?;
    Some(Said {
        value,
        fallen: x < -36.0,
    })
}

// For a user that drops, on purpose, what the exponential says.
pub fn answer_alone(r: Option<Said>) -> Option<f64>
    ensures { result ≡ answer_alone r }
{
    r.map(|s| s.value)
}
