// RULES 4.6: roots side by side, for formulas that go on in plain f64. A root is a chain of operations that wait for
// each other, and several chains fill each other's waits: all are guessed, then all powers about the guesses are
// worked, then all are told.
ghost use Rattle.std.specs.Prelude.{◌≡◌, T};
ghost use Rattle.num_working.specs.Working.{plain};
ghost use Rattle.num_roots.specs.Root.{root};
ghost use Rattle.num_roots.specs.Side.{searchable, three_roots, two_roots};

use crate::root::{Exponent, Guess, about_log, about_whole_power, root, searchable};
use num_powers::whole_power;
use num_working::plain;

// Of one number.
#[derive(Clone, Copy)]
pub struct TwoRoots {
    pub first: f64,
    pub second: f64,
}

// Two of one number, and the first of another. No twin of `TwoRoots` by a size: its second is guessed in another way
// (`three_searched`).
#[derive(Clone, Copy)]
pub struct ThreeRoots {
    pub first: f64,
    pub second: f64,
    pub other: f64,
}

fn two_by_one(x: f64, e: Exponent, f: Exponent) -> TwoRoots
    ensures { result ≡ two_roots e f x }
{
    TwoRoots {
        first: plain(root(x, e)),
        second: plain(root(x, f)),
    }
}

fn two_told(g: Guess, h: Guess) -> TwoRoots
    ensures { result ≡ record { first = plain (root g.e g.x); second = plain (root h.e h.x) } }
{
    let p = g.powers();
    let q = h.powers();
    TwoRoots {
        first: plain(g.root(p)),
        second: plain(h.root(q)),
    }
}

fn two_searched(x: f64, e: Exponent, f: Exponent) -> TwoRoots
    requires { T (searchable e x) × T (searchable f x) }
    ensures { result ≡ two_roots e f x }
{
    let t = whole_power(x, e.m);
    let u = whole_power(x, f.m);
    let l = about_log(x);
    let g = Guess::new(x, e, t, l, t);
    let h = Guess::new(x, f, u, l, u);
    if let (Some(g), Some(h)) = (g, h) {
        return two_told(g, h);
    }
    two_by_one(x, e, f)
}

pub fn two_roots(x: f64, e: Exponent, f: Exponent) -> TwoRoots
    ensures { result ≡ two_roots e f x }
{
    if searchable(x, e) && searchable(x, f) {
        return two_searched(x, e, f);
    }
    two_by_one(x, e, f)
}

fn three_by_one(x: f64, e: Exponent, f: Exponent, z: f64) -> ThreeRoots
    ensures { result ≡ three_roots e f x z }
{
    ThreeRoots {
        first: plain(root(x, e)),
        second: plain(root(x, f)),
        other: plain(root(z, e)),
    }
}

fn three_told(g: Guess, h: Guess, i: Guess) -> ThreeRoots
    ensures { result ≡ record { first = plain (root g.e g.x); second = plain (root h.e h.x); other = plain (root i.e i.x) } }
{
    let p = g.powers();
    let r = i.powers();
    let w = h.powers();
    ThreeRoots {
        first: plain(g.root(p)),
        second: plain(h.root(w)),
        other: plain(i.root(r)),
    }
}

// For an f with more products than e: a power by squares leads to its guess, which so need not wait for its target.
fn three_searched(x: f64, e: Exponent, f: Exponent, z: f64) -> ThreeRoots
    requires { T (searchable e x) × T (searchable f x) × T (searchable e z) }
    ensures { result ≡ three_roots e f x z }
{
    let t = whole_power(x, e.m);
    let u = whole_power(x, f.m);
    let v = whole_power(z, e.m);
    let l = about_log(x);
    let g = Guess::new(x, e, t, l, t);
    let h = Guess::new(x, f, u, l, about_whole_power(x, f.m));
    let i = Guess::new(z, e, v, about_log(z), v);
    if let (Some(g), Some(h), Some(i)) = (g, h, i) {
        return three_told(g, h, i);
    }
    three_by_one(x, e, f, z)
}

pub fn three_roots(x: f64, e: Exponent, f: Exponent, z: f64) -> ThreeRoots
    ensures { result ≡ three_roots e f x z }
{
    if searchable(x, e) && searchable(x, f) && searchable(z, e) {
        return three_searched(x, e, f, z);
    }
    three_by_one(x, e, f, z)
}
