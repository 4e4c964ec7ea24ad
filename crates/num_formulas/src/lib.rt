// Formulas of numbers, whole powers, exponentials and roots, and how one is worked (RULES 4.1 and 4.2); no code.
#![tactic(auto)]
