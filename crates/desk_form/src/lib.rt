// RULES 14.5: where a text stops being in the form.
#![tactic(auto)]

pub mod stop;
pub mod wrong;
