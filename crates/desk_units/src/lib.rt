// RULES 14.2: the numbers of a sheet and of an answer as they are shown to a person, all by whole numbers.
#![tactic(auto)]

ghost use Rattle.std.specs.Prelude.{◌≡◌, false, ◌≤◌, length};
ghost use Rattle.sheet_write.specs.Writing.{Wrote, Fitted};
ghost use Rattle.desk_units.specs.Units.{nearest, shortest, celsius, bar, thousandth, kilograms_down, kilograms_up, density, pressure};
ghost use Rattle.desk_units.specs.Shown.{front, last_digits, sign_text, shown_text};

use num_whole::whole_below;
use sheet_write::{number_len, put, put_number};

// digits, with so many of them behind the point; `-` in front where it is below 0.
#[derive(Clone, Copy)]
pub struct Shown {
    pub below: bool,
    pub digits: u64,
    pub places: u8,
}

fn fixed(digits: u64, places: u8) -> Shown
    ensures { result ≡ record { below = false; digits = digits; places = places } }
{
    Shown {
        below: false,
        digits,
        places,
    }
}

// ---- from a number of the sheet

// With no 0 at its end, but one place stays.
#[tactic(auto, unfolding(crate::specs::Units::shortest))]
fn shortest(n: u64, places: u8) -> Shown
    ensures { result ≡ shortest places n }
{
    if places > 1 && n % 10 == 0 {
        shortest(n / 10, places - 1)
    } else {
        fixed(n, places)
    }
}

// From 0.1 mK: 0 C are 2,731,500.
#[tactic(auto, unfolding(crate::specs::Units::celsius))]
pub fn celsius(n: u64) -> Shown
    ensures { result ≡ celsius n }
{
    if n < 2_731_500 {
        return Shown {
            below: true,
            ..shortest(2_731_500 - n, 4)
        };
    }
    shortest(n - 2_731_500, 4)
}

// From Pa. Public, as `thousandth` is: a line each over `shortest`, and `kilograms_down` and `kilograms_up` over `fixed`.
#[tactic(auto, unfolding(crate::specs::Units::bar))]
pub fn bar(n: u64) -> Shown
    ensures { result ≡ bar n }
{
    shortest(n, 5)
}

// From g/m³ in kg/m³, or from mL in L.
#[tactic(auto, unfolding(crate::specs::Units::thousandth))]
pub fn thousandth(n: u64) -> Shown
    ensures { result ≡ thousandth n }
{
    shortest(n, 3)
}

// ---- from what was answered

// A half goes up.
#[tactic(auto, unfolding(crate::specs::Units::nearest))]
fn nearest(n: u64, by: u64) -> u64
    requires { 2 ≤ by }
    ensures { result ≡ nearest by n }
{
    if n % by < by / 2 { n / by } else { n / by + 1 }
}

// From mg, what is held or to spare: never more than it is.
#[tactic(auto, unfolding(crate::specs::Units::kilograms_down))]
pub fn kilograms_down(mg: u64) -> Shown
    ensures { result ≡ kilograms_down mg }
{
    fixed(mg / 1000, 3)
}

// From mg, what is needed or missing: never less than it is.
#[tactic(auto, unfolding(crate::specs::Units::kilograms_up, crate::specs::Units::rounded_up))]
pub fn kilograms_up(mg: u64) -> Shown
    ensures { result ≡ kilograms_up mg }
{
    fixed(mg.div_ceil(1000), 3)
}

// Of a state, in kg/m³.
#[tactic(auto, using(crate::proofs::Roundings::thousand), unfolding(crate::specs::Units::density))]
pub fn density(rho: f64) -> Option<Shown>
    ensures { result ≡ density rho }
{
    Some(fixed(nearest(whole_below(rho * 1000.0)?, 100), 1))
}

// Of saturation, from Pa in bar.
#[tactic(auto, unfolding(crate::specs::Units::pressure))]
pub fn pressure(p: f64) -> Option<Shown>
    ensures { result ≡ pressure p }
{
    Some(fixed(nearest(whole_below(p)?, 1000), 2))
}

// ---- as text

// What is left of n without its last k digits.
#[tactic(auto, using(crate::proofs::Digits::front_next), unfolding(crate::specs::Shown::front))]
fn front(n: u64, k: u8) -> u64
    ensures { result ≡ front k n }
{
    if k == 0 { n } else { front(n / 10, k - 1) }
}

// The last k digits of n.
#[tactic(auto, using(crate::proofs::Digits::last_length, sheet_write::proofs::Writings::nothing), unfolding(crate::specs::Shown::last_digits))]
fn put_last(out: &mut [u8], n: u64, k: u8) -> usize
    requires { k ≤ length out.old }
    ensures { Wrote out.old out.new result (last_digits k n) }
{
    if k == 0 {
        return 0;
    }
    let at = put_last(out, n / 10, k - 1);
    out[at] = b'0' + (n % 10) as u8;
    at + 1
}

#[tactic(auto, unfolding(crate::specs::Shown::sign_text))]
fn put_sign(out: &mut [u8], below: bool) -> usize
    requires { length (sign_text below) ≤ length out.old }
    ensures { Wrote out.old out.new result (sign_text below) }
{
    if below { put(out, b"-") } else { put(out, b"") }
}

// At most 277 bytes.
#[tactic(auto, using(crate::proofs::Digits::shown_length), unfolding(crate::specs::Shown::sign_text))]
fn shown_len(s: Shown) -> usize
    ensures { result ≡ length (shown_text s) }
{
    usize::from(s.below) + number_len(front(s.digits, s.places)) + 1 + usize::from(s.places)
}

// Where it fits; else 0, and nothing is written.
#[tactic(auto, using(crate::proofs::Digits::shown_length, crate::proofs::Digits::last_length))]
pub fn put_shown(out: &mut [u8], s: Shown) -> usize
    ensures { Fitted out.old out.new (shown_text s) result }
{
    if shown_len(s) > out.len() {
        return 0;
    }
    let whole = front(s.digits, s.places);
    let a = put_sign(out, s.below);
    let b = a + put_number(&mut out[a..], whole);
    let c = b + put(&mut out[b..], b".");
    c + put_last(&mut out[c..], s.digits, s.places)
}
