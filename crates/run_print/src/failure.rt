// The line of a cell that was not found right.
use crate::bits::{STDOUT, say};
use crate::table::Row;
use crate::tally::{Count, Tally};

// The whole number at or below x; 0 where there is none.
fn whole(x: f64) -> u64 {
    if x > -1.0 && x < 18446744073709551616.0 {
        std::num::truncating_f64_to_u64(x)
    } else {
        0
    }
}

// The six places are the last digits of a number of seven.
fn positive(x: f64) {
    let millionths = whole(x * 1000000.0);
    let mut digits = [0u8; 20];
    let k = io::decimal(1000000 + millionths % 1000000, &mut digits);
    io::print_decimal(STDOUT, millionths / 1000000);
    say(b".");
    say(&digits[1..k]);
}

// A number with six places, cut off there.
fn show(x: f64) {
    if x < 0.0 {
        say(b"-");
        positive(-x);
    } else if x >= 0.0 {
        positive(x);
    } else {
        say(b"no number");
    }
}

// What a comparison of a cell found, and the number that says how it is wrong, after words of what that is.
#[derive(Clone, Copy)]
pub struct Finding<'a> {
    pub right: bool,
    pub words: &'a [u8],
    pub x: f64,
}

impl<'a> Row<'a> {
    // A cell with its column's name.
    fn tell(&self, column: usize) {
        say(self.name(column));
        say(b" ");
        say(self.cell(column));
    }

    // The line of a failure: the row's first two cells, which tell it from others, the cell as printed, and how it is
    // wrong.
    fn wrong(&self, column: usize, found: Finding) {
        self.tell(0);
        say(b", ");
        self.tell(1);
        say(b": printed ");
        self.tell(column);
        say(found.words);
        show(found.x);
        say(b"\n");
    }

    // A comparison of a cell, counted, and told where it was not found right.
    pub fn judged(&self, column: usize, tally: &mut Tally, which: Count, found: Finding) {
        if !found.right {
            self.wrong(column, found);
        }
        tally.found(which, found.right);
    }
}
