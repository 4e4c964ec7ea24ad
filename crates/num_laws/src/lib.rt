// Laws of numbers, no code: quotients by small numbers as products, bit for bit; the order of floats that have no minus
// sign, and that whole powers keep it.
#![tactic(auto)]
