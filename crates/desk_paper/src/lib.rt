// What is written to a person: words and numbers to a file, and the help (RULES 13 and 14.2). No contract can say which
// bytes are written to a file; the numbers that are shown, and what they are of, are promised where they come from.
#![tactic(auto)]

pub mod files;
pub mod help;
pub mod paper;
