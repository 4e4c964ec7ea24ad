// Rows 40 to 42, the non-analytic ones, which see the neighbourhood of the critical point: what their terms and
// brackets are made of but for Ψ, in plain f64. A number here that is not finite fails whatever is worked from it.
ghost use Rattle.std.specs.Prelude.{◌≡◌};
ghost use Rattle.num_working.specs.Working.{over};
ghost use Rattle.num_formulas.specs.Formula.{absolute, num, value};
ghost use Rattle.eos_non_analytic.specs.Parts.{around, near, raised, held_near, parts, shared, critical_by};

use eos_constants::{Printed, worked_as};
use eos_rows::{NonAnalytic, non_analytic_row};
use num_roots::root::Exponent;
use num_roots::side::{three_roots, two_roots};
use num_working::over;

// What the three rows share: e = δ − 1, X = e·e, r = root 5/3 of X, v = root 2/3 of X.
#[derive(Clone, Copy)]
pub struct Near {
    pub e: f64,
    pub x: f64,
    pub r: f64,
    pub v: f64,
}

// θ, Δ and Xᵃ⁻¹ of a row, which rows 40 and 41 share.
#[derive(Clone, Copy)]
struct Shared {
    theta: f64,
    delta: f64,
    low: f64,
}

// θ, Δ, P₀ = Δᵇ, P₁ = P₀/Δ and Xᵃ⁻¹ of a row.
#[derive(Clone, Copy)]
pub struct Edge {
    pub theta: f64,
    pub delta: f64,
    pub p0: f64,
    pub p1: f64,
    pub low: f64,
}

// All of it.
#[derive(Clone, Copy)]
pub struct Critical {
    pub near: Near,
    pub first: Edge,
    pub second: Edge,
    pub third: Edge,
}

// What rows 40 to 42 share.
pub fn near_critical(delta: f64) -> Near
    ensures { result ≡ near (around delta) }
{
    let e = delta - 1.0;
    let x = e * e;
    let roots = two_roots(x, worked_as(Printed::Of10_6), Exponent { m: 2, k: 3 });
    Near {
        e,
        x,
        r: roots.first,
        v: roots.second,
    }
}

// Not the library's abs: |−0| is −0 here (docs/DECISIONS.md).
fn size_of(x: f64) -> f64
    ensures { result ≡ absolute x }
{
    if x < 0.0 { -x } else { x }
}

// A whole power of X, times |e| where a has a half: Xᵃ of the cube, Xᵃ⁻¹ of the square.
fn raise(half: bool, e: f64, power: f64) -> f64
    ensures { result ≡ value (raised half (num e) (num power)) }
{
    if half { power * size_of(e) } else { power }
}

fn shared_by(row: NonAnalytic, n: Near, tau: f64) -> Shared
    ensures { result ≡ shared (parts row (held_near n) tau) }
{
    let theta = (1.0 - tau) + row.ka * n.r;
    let square = n.x * n.x;
    let delta = theta * theta + row.kb * raise(row.half, n.e, square * n.x);
    let low = raise(row.half, n.e, square);
    Shared { theta, delta, low }
}

// A row by its root Δᵇ. Field by field: `Shared` and `Edge` are two types, and `..base` takes one.
fn edge_at(s: Shared, p0: f64) -> Edge
    ensures { result ≡ record { theta = s.theta; delta = s.delta; p0 = p0; p1 = over p0 s.delta; low = s.low } }
{
    Edge {
        theta: s.theta,
        delta: s.delta,
        p0,
        p1: over(p0, s.delta),
        low: s.low,
    }
}

// Rows 40 to 42 by what they share, which `near_critical` works before it.
pub fn at_critical(near: Near, tau: f64) -> Critical
    ensures { result ≡ critical_by near tau }
{
    // Row 41 differs from row 40 in n and b alone, and row 42 has the b of row 40.
    let row = non_analytic_row(0);
    let next = non_analytic_row(1);
    let shared = shared_by(row, near, tau);
    let other = shared_by(non_analytic_row(2), near, tau);
    let b = row.root;
    let c = next.root;
    let roots = three_roots(shared.delta, worked_as(b), worked_as(c), other.delta);
    Critical {
        near,
        first: edge_at(shared, roots.first),
        second: edge_at(shared, roots.second),
        third: edge_at(other, roots.other),
    }
}
