// The whole powers that Table 31 needs, each worked once and handed on together (RULES 4.3; docs/ARRANGEMENT.md,
// section 2), as arrays whose sizes are the table's.
#![tactic(auto, unfolding(num_powers::specs::Power::powers, num_powers::specs::Power::power))]

ghost use Rattle.std.specs.Prelude.{◌≡◌, map};
ghost use Rattle.std.specs.List.{range_with_len};
ghost use Rattle.num_powers.specs.Power.{power, powers};

// The first N: 1, x, and then each the one before it times x.
fn first_powers<const N: usize>(x: f64) -> [f64; N]
    ensures { result ≡ map (power x) (range_with_len 0 N) }
{
    let mut powers = [1.0; N];
    let mut next = x;
    for i in 1..N {
        powers[i] = next;
        next = next * x;
    }
    powers
}

// Those of δ: δ⁰ to δ¹⁰.
pub fn powers_to_10(x: f64) -> [f64; 11]
    ensures { result ≡ powers 10 x }
{
    first_powers::<11>(x)
}

// Those of τ: τ⁰ to τ²⁸.
pub fn powers_to_28(x: f64) -> [f64; 29]
    ensures { result ≡ powers 28 x }
{
    first_powers::<29>(x)
}

// Those of the quarter root q of τ: q⁰ to q³.
pub fn powers_to_3(x: f64) -> [f64; 4]
    ensures { result ≡ powers 3 x }
{
    first_powers::<4>(x)
}
