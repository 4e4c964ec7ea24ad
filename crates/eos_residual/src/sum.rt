// RULES 4.8: the sums of the residual part over all 42 rows in the table's order: all five, or the first, which a
// pressure needs. Each row's term is worked once for all that are asked for, in plain f64, and each sum is tested once,
// at its end. What hangs on the temperature comes with the isotherm.
ghost use Rattle.std.specs.Prelude.{◌≡◌, ◌+◌, ◌≤◌, cond};
ghost use Rattle.num_working.specs.Working.{checked};
ghost use Rattle.num_formulas.specs.Formula.{num, value};
ghost use Rattle.eos_brackets.specs.Derivative.{Delta, of, grown};
ghost use Rattle.eos_brackets.specs.Bracket.{exponential};
ghost use Rattle.eos_non_analytic.specs.Parts as Parts;
ghost use Rattle.eos_non_analytic.specs.Figures.{non_analytic_figures};
ghost use Rattle.eos_terms.specs.Term as Term;
ghost use Rattle.eos_terms.specs.Term.{in_quarters};
ghost use Rattle.eos_terms.specs.Fallen.{fallen_terms};
ghost use Rattle.eos_residual.specs.Sum.{onto, total, Meet, Nine, polynomial_figures, exponential_figures, gaussian_figures, residual, all_five, residual_part};

use eos_brackets::{
    Five, exponential_brackets, first_bracket, gaussian_brackets, grow, grow_first,
    polynomial_brackets, times,
};
use eos_isotherm::Isotherm;
use eos_non_analytic::figures::add;
use eos_non_analytic::parts::{Critical, at_critical, near_critical};
use eos_rows::columns::{coefficients, decay_powers, delta_powers, tau_quarters};
use eos_rows::{gaussian_row, non_analytic_row};
use eos_terms::term::{Point, at_density};
use num_working::checked;

// The sums that are asked for, in plain f64; and where all five are, how many terms fell away.
#[derive(Clone, Copy)]
struct Added {
    five: Five,
    fallen: u32,
}

// The five sums, and how many terms fell away.
#[derive(Clone, Copy)]
pub struct Residual {
    pub sums: Option<Five>,
    pub fallen: u32,
}

// t, from quarters.
fn in_quarters(q: u8) -> f64
    ensures { result ≡ value (in_quarters q) }
{
    q as f64 / 4.0
}

// The sums so far, and the figures of a row of 8 to 34: by all five brackets, or by the first alone. z is δᶜ.
#[inline(always)]
fn grow_exponential<const ALL: bool>(s: Five, term: f64, d: f64, q: u8, c: f64, z: f64) -> Five
    ensures { result ≡ grown ALL s term (λ k. value (exponential (num d) (in_quarters q) (num c) (num z) k)) }
{
    if ALL {
        let t = in_quarters(q);
        grow(ALL, s, term, exponential_brackets(d, t, c, z))
    } else {
        grow_first(s, term, first_bracket(d, c, z))
    }
}

// What all rows are worked from, at a density on an isotherm. Lent to each of its methods, it is copied for none.
#[derive(Clone, Copy)]
struct Terms {
    iso: Isotherm,
    point: Point,
    critical: Critical,
    ghost pointed: { point ≡ Term.point iso point.delta },
    ghost near: { critical ≡ Parts.critical iso point.delta },
}

impl Terms {
    // Rows 1 to 7, from the first.
    // `all`: tried by a const parameter from `sums_at` down, and a pressure took 4 to 8 % more.
    fn polynomial_sums(&self, all: bool) -> Five
        ensures { Meet all result (λ k. total (polynomial_figures self.now.iso self.now.point.delta k)) }
    {
        let ns = coefficients();
        let ds = delta_powers();
        let qs = tau_quarters();
        let xs = self.point.powers;
        let ys = self.iso.powers;
        let d = ds[0];
        let first = polynomial_brackets(d as f64, in_quarters(qs[0]));
        let mut s = times(ns[0] * xs[d as usize] * ys[0], first);
        for i in 1..7 {
            let d = ds[i];
            let brackets = polynomial_brackets(d as f64, in_quarters(qs[i]));
            s = grow(all, s, ns[i] * xs[d as usize] * ys[i], brackets);
        }
        s
    }

    // Nine of rows 8 to 34, from the one at place FIRST on, onto the sums so far. A loop of so few turns the compiler lays out
    // whole, and then each entry of a column stands where it is used, and none on the stack (docs/DECISIONS.md).
    fn nine_rows<const ALL: bool, const FIRST: usize>(&self, start: Five) -> Five
        requires { FIRST + 9 ≤ 27 }
        ensures { Nine ALL FIRST start result (exponential_figures self.now.iso self.now.point.delta) }
    {
        let ns = coefficients();
        let ds = delta_powers();
        let qs = tau_quarters();
        let cs = decay_powers();
        let xs = self.point.powers;
        let es = self.point.decays;
        let ys = self.iso.powers;
        let mut s = start;
        for i in FIRST..FIRST + 9 {
            let d = ds[7 + i];
            let c = cs[i];
            let z = c as usize;
            let term = ns[7 + i] * xs[d as usize] * ys[7 + i] * es[z - 1];
            s = grow_exponential::<ALL>(s, term, d as f64, qs[7 + i], c as f64, xs[z]);
        }
        s
    }

    // Rows 8 to 34.
    fn exponential_rows<const ALL: bool>(&self, start: Five) -> Five
        ensures { Meet ALL result (λ k. onto (checked (of start k)) (exponential_figures self.now.iso self.now.point.delta k)) }
    {
        let s16 = self.nine_rows::<ALL, 0>(start);
        let s25 = self.nine_rows::<ALL, 9>(s16);
        self.nine_rows::<ALL, 18>(s25)
    }

    // `all` chooses here: tried by a const parameter from `sums_at` down, and a pressure took 4 to 8 % more.
    fn exponential_sums(&self, all: bool, start: Five) -> Five
        ensures { Meet all result (λ k. onto (checked (of start k)) (exponential_figures self.now.iso self.now.point.delta k)) }
    {
        if all {
            self.exponential_rows::<true>(start)
        } else {
            self.exponential_rows::<false>(start)
        }
    }

    // Rows 35 to 39.
    // `all`: tried by a const parameter from `sums_at` down, and a pressure took 4 to 8 % more.
    fn gaussian_sums(&self, all: bool, start: Five) -> Five
        ensures { Meet all result (λ k. onto (checked (of start k)) (gaussian_figures self.now.iso self.now.point.delta k)) }
    {
        let xs = self.point.powers;
        let bs = self.point.bells;
        let ys = self.iso.powers;
        let mut s = start;
        for i in 0..5 {
            let r = gaussian_row(i);
            let brackets = gaussian_brackets(
                r.d as f64,
                in_quarters(r.q),
                r.alpha,
                r.beta,
                r.gamma,
                r.epsilon,
                self.point.delta,
                self.iso.tau,
            );
            s = grow(
                all,
                s,
                r.n * xs[r.d as usize] * ys[34 + i] * bs[i],
                brackets,
            );
        }
        s
    }

    // Rows 40 to 42.
    fn non_analytic_rows<const ALL: bool>(&self, start: Five) -> Five
        ensures { Meet ALL result (λ k. onto (checked (of start k)) (non_analytic_figures self.now.iso self.now.point.delta k)) }
    {
        let d = self.point.delta;
        let t = self.iso.tau;
        let z = self.point.psis;
        let c = self.critical;
        let s40 = add::<ALL>(start, non_analytic_row(0), c.near, c.first, z[0], d, t);
        let s41 = add::<ALL>(s40, non_analytic_row(1), c.near, c.second, z[0], d, t);
        add::<ALL>(s41, non_analytic_row(2), c.near, c.third, z[1], d, t)
    }

    // `all` chooses here: tried by a const parameter from `sums_at` down, and a pressure took 4 to 8 % more.
    fn non_analytic_sums(&self, all: bool, start: Five) -> Five
        ensures { Meet all result (λ k. onto (checked (of start k)) (non_analytic_figures self.now.iso self.now.point.delta k)) }
    {
        if all {
            self.non_analytic_rows::<true>(start)
        } else {
            self.non_analytic_rows::<false>(start)
        }
    }
}

// All 42, in plain f64. Rows 40 to 42 wait longest for their roots, and their second roots for their first: so the first
// are begun before the exponentials, and the second before the sums. `all` is a parameter and no const one: with two
// functions of this each would call what is worked once for all rows, and it would be laid out in neither.
fn sums_at(all: bool, iso: Isotherm, delta: f64) -> Added
    ensures { Meet all result.five (λ k. residual iso delta k) × (result.fallen ≡ cond all (fallen_terms iso delta) 0) }
{
    let near = near_critical(delta);
    let t = at_density(all, iso, delta);
    let terms = Terms {
        iso,
        point: t.point,
        critical: at_critical(near, iso.tau),
    };
    let s7 = terms.polynomial_sums(all);
    let s34 = terms.exponential_sums(all, s7);
    let s39 = terms.gaussian_sums(all, s34);
    Added {
        five: terms.non_analytic_sums(all, s39),
        fallen: t.fallen,
    }
}

// δφ_δ, which a pressure needs. What the exponentials say is dropped.
pub fn slope_at(iso: Isotherm, delta: f64) -> Option<f64>
    ensures { result ≡ residual iso delta Delta }
{
    checked(sums_at(false, iso, delta).five.d)
}

// Each of the five, tested.
fn all_five(s: Five) -> Option<Five>
    ensures { result ≡ all_five (λ k. checked (of s k)) }
{
    Some(Five {
        d: checked(s.d)?,
        dd: checked(s.dd)?,
        t: checked(s.t)?,
        tt: checked(s.tt)?,
        dt: checked(s.dt)?,
    })
}

// All that a state needs. What the exponentials say is passed on.
pub fn residual_part(iso: Isotherm, delta: f64) -> Residual
    ensures { result ≡ residual_part iso delta }
{
    let s = sums_at(true, iso, delta);
    Residual {
        sums: all_five(s.five),
        fallen: s.fallen,
    }
}
