// RULES 4.6: powers to a fraction, by themselves and side by side.
#![tactic(auto)]

pub mod root;
pub mod side;
