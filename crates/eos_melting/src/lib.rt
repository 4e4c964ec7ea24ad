// The melting pressure at a temperature (004, eq. (3.10); docs/ARRANGEMENT.md, section 11): where the fluid ends and
// dry ice begins. A working that fails is refusal 7 (RULES 4.2).
#![tactic(auto)]

ghost use Rattle.std.specs.Prelude.{◌≡◌};
ghost use Rattle.num_formulas.specs.Formula.{value};
ghost use Rattle.eos_melting.specs.Melting.{past_triple, melting_pressure};

use num_powers::whole_power;
use num_working::checked;

// y = T/T_t − 1, in plain f64
fn past_triple(t: f64) -> f64
    ensures { result ≡ value (past_triple t) }
{
    t / 216.592 - 1.0
}

// The one test at the end stands for all.
pub fn melting_pressure(t: f64) -> Option<f64>
    ensures { result ≡ melting_pressure t }
{
    let y = past_triple(t);
    checked(517950.0 * (1.0 + 1955.5390 * y + 2055.4593 * whole_power(y, 2)))
}
