// The figures of rows 40 to 42, the term (n·δ)·Ψ times the bracket of each derivative (004, Table 32), added to the
// sums so far: all five, or the first, which a pressure needs.
ghost use Rattle.std.specs.Prelude.{◌≡◌};
ghost use Rattle.num_formulas.specs.Formula.{num, value};
ghost use Rattle.eos_brackets.specs.Derivative.{Delta, five, grown};
ghost use Rattle.eos_non_analytic.specs.Parts.{held_near, held_edge};
ghost use Rattle.eos_non_analytic.specs.Figures.{m, brackets_by, non_analytic_term, non_analytic_bracket};

use crate::parts::{Edge, Near};
use eos_brackets::{Five, grow, grow_first};
use eos_rows::NonAnalytic;
use num_working::over;

// A row, what it is worked from, and where: at a reduced density and an inverse reduced temperature.
#[derive(Clone, Copy)]
struct Placed {
    row: NonAnalytic,
    n: Near,
    edge: Edge,
    delta: f64,
    tau: f64,
}

impl Placed {
    // m = Δ_δ/(δ−1)
    fn m(self) -> f64
        ensures { result ≡ value (m self.row (held_near self.n) (held_edge self.edge)) }
    {
        let Placed { row, n, edge, .. } = self;
        row.ka * edge.theta * (20.0 / 3.0) * n.v + 2.0 * row.kb * row.a * edge.low
    }

    // The first bracket alone: in it no P₂ stands.
    #[inline(always)]
    fn first_bracket(self) -> f64
        ensures { result ≡ value (non_analytic_bracket self.row (held_near self.n) (held_edge self.edge) self.delta self.tau Delta) }
    {
        let Placed {
            row,
            n,
            edge,
            delta,
            ..
        } = self;
        let delta_d = n.e * self.m();
        let l = delta * (row.b * edge.p1 * delta_d);
        let k = delta * -(2.0 * row.kc * n.e);
        edge.p0 * (1.0 + k) + l
    }

    // The five brackets by m and P₂: what they share is worked once.
    #[inline(always)]
    fn brackets_by(self, m: f64, p2: f64) -> Five
        ensures { result ≡ five (λ k. value (brackets_by self.row (held_near self.n) (held_edge self.edge) (num m) (num p2) self.delta self.tau k)) }
    {
        let Placed {
            row,
            n,
            edge,
            delta,
            tau,
        } = self;
        // of Δ
        let delta_d = n.e * m;
        let delta_dd = m
            + 4.0 * row.kb * row.a * (row.a - 1.0) * edge.low
            + 2.0 * (row.ka * row.ka) * (100.0 / 9.0) * n.x * (n.v * n.v)
            + row.ka * edge.theta * (40.0 / 3.0) * (2.0 / 3.0) * n.v;
        // of Δᵇ
        let twice = row.b * (row.b - 1.0);
        let pd = row.b * edge.p1 * delta_d;
        let pdd = row.b * (edge.p1 * delta_dd + (row.b - 1.0) * p2 * (delta_d * delta_d));
        let pt = -(2.0 * edge.theta * row.b * edge.p1);
        let ptt = 2.0 * row.b * edge.p1 + 4.0 * (edge.theta * edge.theta) * twice * p2;
        let pdt = -(row.ka * row.b * (20.0 / 3.0) * edge.p1 * n.e * n.v)
            - 2.0 * edge.theta * twice * p2 * delta_d;
        // of Ψ, over Ψ
        let f = tau - 1.0;
        let psi_dd = (2.0 * row.kc * n.x - 1.0) * (2.0 * row.kc);
        let psi_t = -(2.0 * row.kd * f);
        let psi_tt = (2.0 * row.kd * (f * f) - 1.0) * (2.0 * row.kd);
        let k = delta * -(2.0 * row.kc * n.e);
        let g = 1.0 + k;
        let l = delta * pd;
        let squared = delta * delta;
        Five {
            d: edge.p0 * g + l,
            dd: edge.p0 * (2.0 * k + squared * psi_dd) + 2.0 * l * g + squared * pdd,
            t: tau * (pt + edge.p0 * psi_t),
            tt: tau * tau * (ptt + 2.0 * pt * psi_t + edge.p0 * psi_tt),
            dt: tau * (edge.p0 * psi_t * g + l * psi_t + pt * g + delta * pdt),
        }
    }

    // P₂ is worked only where a second derivative is.
    #[inline(always)]
    fn brackets(self) -> Five
        ensures { result ≡ five (λ k. value (non_analytic_bracket self.row (held_near self.n) (held_edge self.edge) self.delta self.tau k)) }
    {
        let p2 = over(self.edge.p1, self.edge.delta);
        self.brackets_by(self.m(), p2)
    }
}

// The sums so far, and a row's figures added: of all five, or of the first alone. psi is its Ψ.
pub fn add<const ALL: bool>(
    s: Five,
    row: NonAnalytic,
    n: Near,
    edge: Edge,
    psi: f64,
    delta: f64,
    tau: f64,
) -> Five
    ensures { result ≡ grown ALL s (value (non_analytic_term row delta (num psi))) (λ k. value (non_analytic_bracket row (held_near n) (held_edge edge) delta tau k)) }
{
    let term = row.n * delta * psi;
    let placed = Placed {
        row,
        n,
        edge,
        delta,
        tau,
    };
    if ALL {
        grow(ALL, s, term, placed.brackets())
    } else {
        grow_first(s, term, placed.first_bracket())
    }
}
