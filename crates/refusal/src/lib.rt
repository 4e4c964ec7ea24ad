// RULES 3.1: a refusal, the error of whatever refuses, by its number.
#![tactic(auto)]

// Any number, and no enum of those of RULES 3.1: `write_report`, `put_answer` and `number_of` promise for each.
#[derive(Clone, Copy)]
pub struct Refusal(pub u8);
