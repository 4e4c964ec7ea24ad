// What the programs that compare sheets are run on, and how they show them.
#![tactic(auto)]

pub mod sheets;
pub mod texts;
