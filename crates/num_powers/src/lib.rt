// RULES 4.3: whole powers, by n − 1 products from the left.
#![tactic(auto)]

ghost use Rattle.std.specs.Prelude.{◌≡◌};
ghost use Rattle.num_powers.specs.Power.{power};

pub fn whole_power(x: f64, n: usize) -> f64
    ensures { result ≡ power x n }
{
    if n == 0 {
        return 1.0;
    }
    let mut p = x;
    // i is not read: the proof names it.
    for i in 1..n {
        p = p * x;
    }
    p
}
