// What the programs that compare print with: figures as their bits; printed tables in CSV, their numbers and cells, and
// what a comparison with one finds, in counts and in lines of standard output.
#![tactic(auto)]

pub mod bits;
pub mod counts;
pub mod decimal;
pub mod failure;
pub mod files;
pub mod place;
pub mod table;
pub mod tally;
