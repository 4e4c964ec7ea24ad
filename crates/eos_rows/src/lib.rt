// Table 31 of 004, read as docs/READING.md says: rows 1 to 34 by column, and rows 35 to 42, which have more numbers and
// are few, by row, each equal to the definition's (specs/Row.antt) by computation. Such a row is had by its place among
// those of its kind, counted from 0; past the end stands the last. `new` makes a row of what one line of the table prints.
#![tactic(auto)]

pub mod columns;

ghost use Rattle.std.specs.Prelude.{◌≡◌, get_or};
ghost use Rattle.eos_rows.specs.Row.{gaussians, row39, non_analytics, row42};

use eos_constants::Printed;

// Rows 35 to 39.
#[derive(Clone, Copy)]
pub struct Gaussian {
    pub n: f64,
    pub d: u8,
    pub q: u8,
    pub alpha: f64,
    pub beta: f64,
    pub gamma: f64,
    pub epsilon: f64,
}

// Rows 40 to 42. β is 0.3 in each. `half` is true where a is 3.5 and not 3; `root` is how a power b is worked.
#[derive(Clone, Copy)]
pub struct NonAnalytic {
    pub n: f64,
    pub a: f64,
    pub half: bool,
    pub b: f64,
    pub root: Printed,
    pub ka: f64,
    pub kb: f64,
    pub kc: f64,
    pub kd: f64,
}

impl Gaussian {
    fn new(n: f64, d: u8, q: u8, alpha: f64, beta: f64, gamma: f64, epsilon: f64) -> Self
        ensures { result ≡ record { n = n; d = d; q = q; alpha = alpha; beta = beta; gamma = gamma; epsilon = epsilon } }
    {
        Gaussian {
            n,
            d,
            q,
            alpha,
            beta,
            gamma,
            epsilon,
        }
    }
}

// By a match and no array, which is laid on the stack where it is taken (docs/DECISIONS.md, "The rows of Table 31").
pub fn gaussian_row(i: usize) -> Gaussian
    ensures { result ≡ get_or gaussians i row39 }
{
    match i {
        0 => Gaussian::new(-0.21365488688320e3, 2, 4, 25.0, 325.0, 1.16, 1.0),
        1 => Gaussian::new(0.26641569149272e5, 2, 0, 25.0, 300.0, 1.19, 1.0),
        2 => Gaussian::new(-0.24027212204557e5, 2, 4, 25.0, 300.0, 1.19, 1.0),
        3 => Gaussian::new(-0.28341603423999e3, 3, 12, 15.0, 275.0, 1.25, 1.0),
        _ => Gaussian::new(0.21247284400179e3, 3, 12, 20.0, 275.0, 1.22, 1.0),
    }
}

pub fn non_analytic_row(i: usize) -> NonAnalytic
    ensures { result ≡ get_or non_analytics i row42 }
{
    match i {
        0 => NonAnalytic {
            n: -0.66642276540751e0,
            a: 3.5,
            half: true,
            b: 0.875,
            root: Printed::Of0_875,
            ka: 0.7,
            kb: 0.3,
            kc: 10.0,
            kd: 275.0,
        },
        1 => NonAnalytic {
            n: 0.72608632349897e0,
            a: 3.5,
            half: true,
            b: 0.925,
            root: Printed::Of0_925,
            ka: 0.7,
            kb: 0.3,
            kc: 10.0,
            kd: 275.0,
        },
        _ => NonAnalytic {
            n: 0.55068668612842e-1,
            a: 3.0,
            half: false,
            b: 0.875,
            root: Printed::Of0_875,
            ka: 0.7,
            kb: 1.0,
            kc: 12.5,
            kd: 275.0,
        },
    }
}
