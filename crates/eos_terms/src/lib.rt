// What the terms of the residual part are made of at a density (004, Tables 31 and 32), and how many of them fell away.
#![tactic(auto)]

mod fallen;
pub mod term;
