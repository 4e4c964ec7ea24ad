// RULES 10.1: what is demanded of the doors, of a line and of a sheet, as theorems; no code.
#![tactic(auto)]
