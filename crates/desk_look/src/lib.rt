// What a cylinder's line comes to, as it is explained (RULES 14.3), and what it has to be warned of (RULES 14.4).
#![tactic(auto)]

pub mod gauge;
pub mod held;
