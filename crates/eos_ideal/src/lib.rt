// τφ°_τ and τ²φ°_ττ, the ideal part of what Table 3 needs (004, section 6.1, Tables 27 and 28). A working that fails is
// refusal 7 (RULES 4.2); each of the two is worked on its own, so that one can fail and the other not.
#![tactic(auto)]

ghost use Rattle.std.specs.Prelude.{◌≡◌};
ghost use Rattle.num_formulas.specs.Formula.{num, ◌⊕◌, ◌⊖◌};
ghost use Rattle.eos_ideal.specs.Ideal.{table27, head_τ, head_ττ, row_τ, row_ττ, phi_τ, phi_ττ, sums, ideal_part};

use num_exponential::exponential::{answer_alone, exponential};
use num_working::{checked, over, plain};

// A row of Table 27.
#[derive(Clone, Copy)]
struct Row {
    a: f64,
    theta: f64,
}

// Table 27 but for a₁, which is for the entropy only. The rows are i = 4 to 8.
#[derive(Clone, Copy)]
struct Table {
    a2: f64,
    a3: f64,
    rows: [Row; 5],
}

// φ°_τ and φ°_ττ as far as they are summed, in plain f64.
#[derive(Clone, Copy)]
struct Sums {
    first: f64,
    second: f64,
}

#[derive(Clone, Copy)]
pub struct Ideal {
    // τφ°_τ
    pub first: Option<f64>,
    // τ²φ°_ττ
    pub second: Option<f64>,
}

fn table_27() -> Table
    ensures { result ≡ table27 }
{
    Table {
        a2: -3.70454304,
        a3: 2.5,
        rows: [
            Row {
                a: 1.99427042,
                theta: 3.15163,
            },
            Row {
                a: 0.62105248,
                theta: 6.11190,
            },
            Row {
                a: 0.41195293,
                theta: 6.77708,
            },
            Row {
                a: 1.04028922,
                theta: 11.32384,
            },
            Row {
                a: 0.08327678,
                theta: 27.08792,
            },
        ],
    }
}

// What stands before the rows.
#[tactic(auto, unfolding(num_formulas::specs::Formula::value))]
fn heads(t: Table, tau: f64) -> Sums
    ensures { result ≡ sums (head_τ t tau) (head_ττ t tau) }
{
    Sums {
        first: t.a2 + over(t.a3, tau),
        second: -over(t.a3, tau * tau),
    }
}

// One row more; its exponential is worked once for both.
fn with_row(s: Sums, i: Row, tau: f64) -> Sums
    ensures { result ≡ sums (num s.first ⊕ row_τ tau i) (num s.second ⊖ row_ττ tau i) }
{
    let Row { a, theta } = i;
    let e = plain(answer_alone(exponential(-(theta * tau))));
    let o = 1.0 - e;
    Sums {
        first: s.first + (a * theta) * (over(1.0, o) - 1.0),
        second: s.second - over((a * (theta * theta)) * e, o * o),
    }
}

fn all_rows(tau: f64) -> Sums
    ensures { result ≡ sums (phi_τ tau) (phi_ττ tau) }
{
    let table = table_27();
    let mut sums = heads(table, tau);
    for row in &table.rows {
        sums = with_row(sums, *row, tau);
    }
    sums
}

pub fn ideal_part(tau: f64) -> Ideal
    ensures { result ≡ ideal_part tau }
{
    let s = all_rows(tau);
    Ideal {
        first: checked(tau * s.first),
        second: checked((tau * tau) * s.second),
    }
}
