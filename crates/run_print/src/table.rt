// The cells of a table's lines. Commas part them, and a note in quotes may hold commas of its own. The first line names
// the columns; the column `bad_cells` names those whose cell the scan has damaged.
ghost use Rattle.std.specs.Prelude.{◌-◌, ◌<◌, ◌≤◌, length};

use crate::decimal::{Decimal, read_decimal};
use crate::place::place_of;

// The place of `bad_cells` in both tables.
const BAD_CELLS: usize = 11;

// The start of the next line; past the last, the end.
pub fn line_after(text: &[u8], at: usize) -> usize
    ensures { (at < length text.now → at < result) × (result ≤ length text.now) }
{
    if at < text.len() {
        let end = place_of(text, at, b'\n');
        if end < text.len() {
            return end + 1;
        }
    }
    text.len()
}

// What stands before the first mark, and what behind it; without one, all of the text and nothing.
fn cut(text: &[u8], mark: u8) -> (&[u8], &[u8])
    ensures first { length result.0.now ≤ length text.now }
    ensures rest { length result.1.now ≤ length text.now - 1 }
{
    let end = place_of(text, 0, mark);
    (&text[..end], text.get(end + 1..).unwrap_or(b""))
}

// Whether a word stands among words that spaces part.
fn names(words: &[u8], word: &[u8]) -> bool {
    let mut rest = words;
    // The library's `split` would cut at a space in quotes too.
    while !rest.is_empty() {
        let (first, more) = cut(rest, b' ');
        if first == word {
            return true;
        }
        rest = more;
    }
    false
}

// The start of the cell after the one at `at`; where the line ends, the empty cell there.
fn cell_after(text: &[u8], at: usize) -> usize
    requires { at ≤ length text.now }
    ensures { result ≤ length text.now }
{
    let end = place_of(text, at, b',');
    if end < text.len() && text[end] == b',' {
        end + 1
    } else {
        end
    }
}

// A line of a table, by the table and where the line starts; a line past the end has no cells.
#[derive(Clone, Copy)]
pub struct Row<'a> {
    pub text: &'a [u8],
    pub line: usize,
}

impl<'a> Row<'a> {
    // The bytes of a cell.
    pub fn cell(&self, column: usize) -> &'a [u8]
        ensures { length result.now ≤ length self.now.text.now }
    {
        if self.text.len() < self.line {
            return b"";
        }
        let mut at = self.line;
        for _ in 0..column {
            at = cell_after(self.text, at);
        }
        &self.text[at..place_of(self.text, at, b',')]
    }

    // The name of a column.
    pub(crate) fn name(&self, column: usize) -> &'a [u8] {
        Row { line: 0, ..*self }.cell(column)
    }

    // Whether a cell holds these bytes.
    pub fn says(&self, column: usize, word: &[u8]) -> bool {
        self.cell(column) == word
    }

    // A cell's number; none where `bad_cells` names the cell, or where it holds no number.
    pub fn printed(&self, column: usize) -> Option<Decimal> {
        if names(self.cell(BAD_CELLS), self.name(column)) {
            return None;
        }
        read_decimal(self.cell(column))
    }
}
