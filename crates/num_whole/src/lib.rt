// RULES 6.5: the whole number at or below a float.
#![tactic(auto)]

ghost use Rattle.std.specs.Prelude.{◌≡◌};
ghost use Rattle.num_whole.specs.Whole.{whole_below};

pub fn whole_below(x: f64) -> Option<u64>
    ensures { result ≡ whole_below x }
{
    if !(0.0 <= x) {
        return None;
    }
    if 9007199254740992.0 <= x {
        return None;
    }
    Some(std::num::truncating_f64_to_u64(x))
}
