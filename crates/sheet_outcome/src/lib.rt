// RULES 3.4 and 7.2: what came of a line and of a sheet, whether the sheet is sent back before its lines are worked,
// and its ending after.
#![tactic(auto)]

ghost use Rattle.std.specs.Prelude.{◌≡◌};
ghost use Rattle.sheet_outcome.specs.Outcome.{is_need, needed, admitted, ending};

use refusal::Refusal;
use sheet_mass::Milligrams;

// A mark is a cylinder line's milligrams, or the number of its refusal; the first `count` marks are the sheet's lines.
// No heap (RULES 11): an array and its count.
#[derive(Clone, Copy)]
pub struct Marks {
    pub marks: [Result<Milligrams, Refusal>; 32],
    pub count: usize,
}

// The total's milligrams and what they come to, or the number that the sheet is sent back with: the three last lines of
// RULES 7.2, and no Result, since a report has each of them.
#[derive(Clone, Copy)]
pub enum Ending {
    Covered(Milligrams),
    Short(Milligrams),
    SentBack(Refusal),
}

// What came of a sheet. One that is sent back before its lines are worked has no marks.
#[derive(Clone, Copy)]
pub struct Outcome {
    pub marks: Marks,
    pub ending: Ending,
}

// RULES 2.4, in mg.
fn is_need(mg: u64) -> bool
    ensures { result ≡ is_need mg }
{
    mg >= 1 && mg <= 9_999_999_999
}

fn need_of(need: Option<u64>) -> Result<u64, Refusal>
    ensures { result ≡ needed need }
{
    match need {
        Some(mg) if is_need(mg) => Ok(mg),
        _ => Err(Refusal(12)),
    }
}

// ok: the text is in the form. Public, and promises 14 where it is not.
#[tactic(auto, unfolding(crate::specs::Outcome::admitted))]
pub fn admit(ok: bool, count: usize, need: Option<u64>) -> Result<u64, Refusal>
    ensures { result ≡ admitted ok count need }
{
    if !ok {
        return Err(Refusal(14));
    }
    if count == 0 {
        return Err(Refusal(10));
    }
    if count > 32 {
        return Err(Refusal(11));
    }
    need_of(need)
}

// 13 where a line was refused.
#[tactic(auto, unfolding(crate::specs::Outcome::ending))]
pub fn conclude(need: u64, t: Option<Milligrams>) -> Ending
    ensures { result ≡ ending need t }
{
    match t {
        None => Ending::SentBack(Refusal(13)),
        Some(mg) if mg.0 >= need => Ending::Covered(mg),
        Some(mg) => Ending::Short(mg),
    }
}
