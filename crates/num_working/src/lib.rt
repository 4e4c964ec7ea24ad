// RULES 4.2: a number that was worked is finite, or the working has failed and there is none.
#![tactic(auto)]

ghost use Rattle.std.specs.Prelude.{◌≡◌};
ghost use Rattle.std.specs.Float.Ieee.Scale.{finite};
ghost use Rattle.num_working.specs.Working.{checked, over, plain};

pub fn is_finite(x: f64) -> bool
    ensures { result ≡ finite x }
{
    x.is_finite()
}

// The one test at the end of a formula.
pub fn checked(x: f64) -> Option<f64>
    ensures { result ≡ checked x }
{
    is_finite(x).then_some(x)
}

// For a formula that goes on in plain f64 and is tested at its end.
pub fn plain(w: Option<f64>) -> f64
    ensures { result ≡ plain w }
{
    w.unwrap_or(0.0 / 0.0)
}

// A quotient by a divisor that is not a constant.
pub fn over(x: f64, y: f64) -> f64
    ensures { result ≡ over x y }
{
    x / plain(checked(y))
}
