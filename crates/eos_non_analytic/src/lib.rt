// The non-analytic rows of the residual part, 40 to 42 (004, section 6.2): what they are made of, and their figures.
#![tactic(auto)]

pub mod figures;
pub mod parts;
