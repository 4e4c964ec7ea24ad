// The counts of a table, one a line.
use crate::bits::{STDOUT, say};
use crate::tally::Tally;

// What is counted stands in `words`, one a line in the order of the counts. A count with an empty line is not told.
pub fn tell_counts(table: &[u8], tally: Tally, words: &[u8]) {
    for (n, line) in tally
        .counts
        .iter()
        .zip(words.split_inclusive(|b| *b == b'\n'))
    {
        if line.len() > 1 {
            say(table);
            say(b": ");
            io::print_decimal(STDOUT, *n);
            say(line);
        }
    }
}
