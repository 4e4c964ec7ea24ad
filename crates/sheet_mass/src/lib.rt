// RULES 6.7 and 11: the grams of a scale and the milligrams of a total, and the one way from the first to the second.
#![tactic(auto)]

ghost use Rattle.std.specs.Prelude.{◌≡◌, ◌≤◌};
ghost use Rattle.sheet_mass.specs.Mass.{is_mass, milligrams_of, from_scale};

// Of the agent, as a scale shows them.
#[derive(Clone, Copy)]
pub struct Grams(pub u64);

// Of a line, and of a total.
#[derive(Clone, Copy)]
pub struct Milligrams(pub u64);

// RULES 2.4, in g. A need has the same bounds by a rule of its own (`sheet_outcome`).
fn is_mass(g: u64) -> bool
    ensures { result ≡ is_mass g }
{
    g >= 1 && g <= 9_999_999_999
}

#[tactic(auto, unfolding(crate::specs::Mass::milligrams_of))]
fn milligrams_of(g: Grams) -> Milligrams
    requires { g.0 ≤ 9_999_999_999 }
    ensures { result ≡ milligrams_of g }
{
    Milligrams(1000 * g.0)
}

// None where it is out of its range.
#[tactic(auto, unfolding(crate::specs::Mass::from_scale), using(crate::proofs::Masses::mass_most))]
pub fn from_scale(g: Grams) -> Option<Milligrams>
    ensures { result ≡ from_scale g }
{
    if is_mass(g.0) {
        return Some(milligrams_of(g));
    }
    None
}
