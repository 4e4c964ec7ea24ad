// The series and the squarings of twelve exponentials (RULES 4.4), step by step together: each step is the same for all
// twelve, so that a compiler works them two by two, and a chain's waits are filled by the others.
ghost use Rattle.std.specs.Prelude.{◌≡◌, T, map, length, get_or, EachIndex};
ghost use Rattle.std.specs.Float.{binary64, nan};
ghost use Rattle.std.specs.Float.Ieee.{div, mul};
ghost use Rattle.num_exponential.specs.Decay.{every};
ghost use Rattle.num_exponential.specs.Lockstep.{chain, pairs, squarings, turn};
ghost use Rattle.num_laws.specs.Quotient.{just_above, divisor, just_below, normal};
ghost use Rattle.num_working.specs.Number.{whole};

// f of each number. An array's own `map` was tried, and the twelve took three times as long.
pub(crate) fn each<F: Fn(f64) -> f64, const N: usize>(x: [f64; N], f: F) -> [f64; N]
    requires { EachIndex x (λ k. F.pre f (get_or x k nan)) }
    ensures long { length result ≡ length x.entry }
    ensures at { EachIndex x.entry (λ k. F.post f (get_or x.entry k nan) (get_or result k nan)) }
{
    let mut r = [0.0; N];
    for i in 0..N {
        r[i] = f(x[i]);
    }
    r
}

// y/k bit for bit with no division, which would be the slowest of all: c is a little below 1/k and h a little above it.
// q has 48 bits, so that q·k and y − q·k are exact (`parted`, num_laws/proofs/Parts.antt).
fn part(y: f64, k: f64, c: f64, h: f64) -> f64
    requires { T (normal y) × T (divisor k) × T (just_below k c) × T (just_above k h) }
    ensures { result ≡ div binary64 y k }
{
    let b = f64::to_bits(y * c);
    let q = f64::from_bits(b - b % 32);
    q + (y - q * k) * h
}

fn parts(y: [f64; 12], k: f64, c: f64, h: f64) -> [f64; 12]
    requires { T (every normal y) × T (divisor k) × T (just_below k c) × T (just_above k h) }
    ensures { result ≡ map (λ v. div binary64 v k) y }
{
    each(y, |v| part(v, k, c, h))
}

// s becomes 1 − (y/k)·s, with q·h for y/k. By index: two arrays are read beside the one that is written.
fn step(s: [f64; 12], q: [f64; 12], h: f64) -> [f64; 12]
    ensures { result ≡ pairs (turn h) q s }
{
    let mut r = [0.0; 12];
    for i in 0..12 {
        r[i] = 1.0 - (q[i] * h) * s[i];
    }
    r
}

// The steps for k = 14, 13, .., 1, with y/(k·2ᵗ) as y/k times 2⁻ᵗ, as in `eased`. Beside each k stand 1/k less a little
// and 1/k and a little more. Written out, since each step has a quotient and a factor of its own.
pub(crate) fn chains(y: [f64; 12]) -> [f64; 12]
    requires { T (every normal y) }
    ensures { result ≡ map (λ v. chain v 14 (whole 1)) y }
{
    let third = parts(y, 3.0, 0.333333333333332, 0.333333333333334);
    let fifth = parts(y, 5.0, 0.199999999999999, 0.200000000000001);
    let seventh = parts(y, 7.0, 0.142857142857142, 0.142857142857144);
    let ninth = parts(y, 9.0, 0.11111111111111, 0.111111111111112);
    let eleventh = parts(y, 11.0, 0.09090909090909, 0.090909090909092);
    let thirteenth = parts(y, 13.0, 0.076923076923076, 0.076923076923078);
    let s = [1.0; 12];
    let s = step(s, seventh, 0.5);
    let s = step(s, thirteenth, 1.0);
    let s = step(s, third, 0.25);
    let s = step(s, eleventh, 1.0);
    let s = step(s, fifth, 0.5);
    let s = step(s, ninth, 1.0);
    let s = step(s, y, 0.125);
    let s = step(s, seventh, 1.0);
    let s = step(s, third, 0.5);
    let s = step(s, fifth, 1.0);
    let s = step(s, y, 0.25);
    let s = step(s, third, 1.0);
    let s = step(s, y, 0.5);
    step(s, y, 1.0)
}

// Each becomes its square.
fn square(s: &mut [f64; 12])
    ensures { s.new ≡ map (λ v. mul binary64 v v) s.old }
{
    for i in 0..12 {
        s[i] = s[i] * s[i];
    }
}

// s becomes s·s, ten times.
pub(crate) fn ten_squarings(s: [f64; 12]) -> [f64; 12]
    ensures { result ≡ map (squarings 10) s }
{
    let mut s = s;
    // n is not read: the proof names it.
    for n in (0..10u32).rev() {
        square(&mut s);
    }
    s
}
