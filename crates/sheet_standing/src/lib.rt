// RULES 3.2, 6.6 and 6.7: the first checks of a line, before it is worked: 1, where a field that it requires is blank, and
// 30, where a line before it has its cylinder number. And the first line that has a number (RULES 14.3).
#![tactic(auto)]

ghost use Rattle.std.specs.Prelude.{◌≡◌, Float, [], ◌∷◌, position};
ghost use Rattle.sheet_line.specs.declared.line.Line.{Line};
ghost use Rattle.sheet_standing.specs.Standing.{lacking, is_on, numbers, standing, first_with};

use refusal::Refusal;
use sheet_line::line::{Line, Reading};
use sheet_read::Sheet;

// Of the fields but the cylinder number. A reading that asks a door takes the temperature with it.
#[tactic(auto, unfolding(crate::specs::Standing::lacking))]
fn is_lacking(l: Line<f64>) -> bool
    ensures { result ≡ lacking l }
{
    l.volume.is_none()
        || match l.reading {
            Reading::Blank => true,
            Reading::Pressure(_) | Reading::Density(_) => l.temperature.is_none(),
            Reading::Weighed(_) => false,
        }
}

// The numbers are those of the lines before it. A blank is none.
#[tactic(auto, unfolding(crate::specs::Standing::standing))]
pub fn standing_of(numbers: &[u64], l: Line<f64>) -> Result<(), Refusal>
    ensures { result ≡ standing numbers.now l }
{
    let n = l.number.ok_or(Refusal(1))?;
    if is_lacking(l) {
        return Err(Refusal(1));
    }
    if numbers.contains(&n) {
        return Err(Refusal(30));
    }
    Ok(())
}

#[tactic(auto, unfolding(crate::specs::Standing::is_on, crate::specs::Standing::numbers))]
fn has_number(l: Line<f64>, n: u64) -> bool
    ensures { result ≡ is_on (numbers (l ∷ [])) n }
{
    l.number == Some(n)
}

fn place_of(lines: &[Line<f64>], n: u64) -> Option<usize>
    ensures { result ≡ position (λ (l : Line Float). is_on (numbers (l ∷ [])) n) lines.now }
{
    lines.iter().position(|l| has_number(*l, n))
}

// The first line that has the number, by its place, that of the first of all being 1; 0 where none has it. A number and
// no Option: `first_with` is public, and promises that 0.
#[tactic(auto, using(crate::proofs::Firsts::first_none, crate::proofs::Firsts::first_some))]
pub fn first_with(s: Sheet, n: u64) -> usize
    ensures { result ≡ first_with 1 s.lines n }
{
    match place_of(&s.lines, n) {
        Some(i) => i + 1,
        None => 0,
    }
}
