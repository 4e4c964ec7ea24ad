// The five derivatives that Table 3 needs, each with its factor: δφ_δ, δ²φ_δδ, τφ_τ, τ²φ_ττ, δτφ_δτ. A number for each;
// the brackets of a row by its numbers (004, Table 32), whatever table they stand in; and how a row's figures, its term
// times its brackets, are added up: all five, or the first, which a pressure needs.
#![tactic(auto)]

ghost use Rattle.std.specs.Prelude.{◌≡◌, false};
ghost use Rattle.num_formulas.specs.Formula.{num, value};
ghost use Rattle.eos_brackets.specs.Derivative.{of, five, times, grown};
ghost use Rattle.eos_brackets.specs.Bracket.{polynomial, first, exponential, gaussian};

#[derive(Clone, Copy)]
pub struct Five {
    pub d: f64,
    pub dd: f64,
    pub t: f64,
    pub tt: f64,
    pub dt: f64,
}

// Of a term (n·δᵈ)·τᵗ.
pub fn polynomial_brackets(d: f64, t: f64) -> Five
    ensures { result ≡ five (λ k. value (polynomial (num d) (num t) k)) }
{
    Five {
        d,
        dd: d * (d - 1.0),
        t,
        tt: t * (t - 1.0),
        dt: t * d,
    }
}

// Of a term with e^(−δᶜ). z is δᶜ.
pub fn exponential_brackets(d: f64, t: f64, c: f64, z: f64) -> Five
    ensures { result ≡ five (λ k. value (exponential (num d) (num t) (num c) (num z) k)) }
{
    let g = c * z;
    Five {
        d: d - g,
        dd: (d - g) * (d - 1.0 - g) - c * g,
        t,
        tt: t * (t - 1.0),
        dt: t * (d - g),
    }
}

// The first of these alone.
#[tactic(auto, unfolding(num_formulas::specs::Formula::value))]
pub fn first_bracket(d: f64, c: f64, z: f64) -> f64
    ensures { result ≡ value (first (num d) (num c) (num z)) }
{
    d - c * z
}

// Of a term with e^(−(α·(δ−ε)² + β·(τ−γ)²)). Eight numbers and no row: the definition names no table (`gaussian`).
pub fn gaussian_brackets(
    d: f64,
    t: f64,
    alpha: f64,
    beta: f64,
    gamma: f64,
    epsilon: f64,
    delta: f64,
    tau: f64,
) -> Five
    ensures { result ≡ five (λ k. value (gaussian (num d) (num t) (num alpha) (num beta) (num gamma) (num epsilon) (num delta) (num tau) k)) }
{
    let b = d - 2.0 * alpha * delta * (delta - epsilon);
    let s = t - 2.0 * beta * tau * (tau - gamma);
    Five {
        d: b,
        dd: b * b - d - 2.0 * alpha * (delta * delta),
        t: s,
        tt: s * s - t - 2.0 * beta * (tau * tau),
        dt: b * s,
    }
}

// The figures of the first row of all, field by field: a method over the five would name each of them too.
pub fn times(term: f64, brackets: Five) -> Five
    ensures { result ≡ times term (of brackets) }
{
    Five {
        d: term * brackets.d,
        dd: term * brackets.dd,
        t: term * brackets.t,
        tt: term * brackets.tt,
        dt: term * brackets.dt,
    }
}

// The first sum so far, and a row's figure of it added; the others stay as they are.
pub fn grow_first(s: Five, term: f64, bracket: f64) -> Five
    ensures { result ≡ grown false s term (λ k. bracket) }
{
    Five {
        d: s.d + term * bracket,
        ..s
    }
}

// The sums so far, and a row's figures added.
pub fn grow(all: bool, s: Five, term: f64, brackets: Five) -> Five
    ensures { result ≡ grown all s term (of brackets) }
{
    let first = grow_first(s, term, brackets.d);
    if all {
        Five {
            dd: s.dd + term * brackets.dd,
            t: s.t + term * brackets.t,
            tt: s.tt + term * brackets.tt,
            dt: s.dt + term * brackets.dt,
            ..first
        }
    } else {
        first
    }
}
