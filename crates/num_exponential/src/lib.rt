// RULES 4.4: the exponential, and twelve of it side by side.
#![tactic(auto)]

pub mod decay;
pub mod exponential;
mod lockstep;
