// A cylinder's line of the sheet: as it is written (RULES 6.3), in whole numbers and in figures (RULES 6.4).
#![tactic(auto)]

pub mod cylinder;
pub mod line;
pub mod record;
