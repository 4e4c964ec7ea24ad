// RULES 14.5: the first line of a text that is not in the form at its place.
ghost use Rattle.desk_form.specs.Wrong.{WrongIs};

use sheet_line::line::read_line;
use sheet_text::read_field_after;

// The line's place among the lines, the first having 1, and where it begins in the text.
#[derive(Clone, Copy)]
pub struct Wrong {
    pub line: usize,
    pub from: usize,
}

// The first line is that of the need, and each other a cylinder's.
#[tactic(auto, using(crate::proofs::Turns::turns))]
pub fn first_wrong(s: &[u8]) -> Option<Wrong>
    ensures { WrongIs s.now result }
{
    let Some((_, mut from)) = read_field_after(s, 0, b'N', b'\n') else {
        return Some(Wrong { line: 1, from: 0 });
    };
    let mut line: usize = 2;
    // A turn passes a line and not a byte, so that it goes over no range.
    while from < s.len() {
        let Some((_, next)) = read_line(s, from) else {
            return Some(Wrong { line, from });
        };
        line += 1;
        from = next;
    }
    None
}
