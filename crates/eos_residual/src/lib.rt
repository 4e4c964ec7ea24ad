// The sums over the residual part's rows (004, section 6.2, Table 32).
#![tactic(auto)]

pub mod sum;
