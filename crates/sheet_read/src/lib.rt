// RULES 6.1 and 6.3: reading a sheet, `N` and the agent needed, and then a line for each cylinder up to the end of the
// text.
#![tactic(auto)]

ghost use Rattle.std.specs.Prelude.{◌≡◌, ◌≤◌, length, drop};
ghost use Rattle.sheet_read.specs.Form.{cylinders, with_need, in_form};
ghost use Rattle.sheet_read.specs.Sheet.{sheet_read};

use sheet_line::line::{Line, read_line};
use sheet_text::read_field_after;

// The first 32 lines, and how many there are. No heap (RULES 11): an array, and a count that tells more than 32.
#[derive(Clone, Copy)]
pub struct Sheet {
    pub need: Option<u64>,
    pub lines: [Line<f64>; 32],
    pub count: usize,
}

// Lines beyond 32 are read for their form, and counted.
#[tactic(auto, unfolding(crate::specs::Padded::padded), using(crate::proofs::Turns::first))]
fn read_lines(s: &[u8], from: usize, need: Option<u64>) -> Option<Sheet>
    requires { from ≤ length s.now }
    ensures { result ≡ sheet_read (with_need need (cylinders (length s.now) (drop from s.now))) }
{
    let mut lines = [Line::default(); 32];
    let mut count: usize = 0;
    let mut at = from;
    // No iterator: where the next line begins is what read_line answers.
    while at < s.len() {
        let (line, next) = read_line(s, at)?;
        if count < 32 {
            lines[count] = line;
        }
        count += 1;
        at = next;
    }
    Some(Sheet { need, lines, count })
}

// None where the text is not in the form.
#[tactic(auto, unfolding(crate::specs::Form::in_form, crate::specs::Form::bank))]
pub fn read_sheet(s: &[u8]) -> Option<Sheet>
    ensures { result ≡ sheet_read (in_form s.now) }
{
    if s.len() > 65536 {
        return None;
    }
    let (need, at) = read_field_after(s, 0, b'N', b'\n')?;
    read_lines(s, at, need)
}
