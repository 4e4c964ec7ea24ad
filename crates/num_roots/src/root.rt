// RULES 4.6: the root x^(m/k). The definition halves between the bits of 0 and of 2²⁰. The k-th whole power rises
// with the bits, so it passes its target at one place only (proofs/Roots.antt). The code guesses that place, tells it
// from the powers of the guess and its neighbours, and looks further out only where these don't show it.
ghost use Rattle.std.specs.Prelude.{◌≡◌, ◌+◌, ◌≤◌, ◌<◌, T, IfSome};
ghost use Rattle.std.specs.Float.{binary64};
ghost use Rattle.std.specs.Float.Ieee.{of_bits};
ghost use Rattle.num_working.specs.Number.{nonneg};
ghost use Rattle.num_powers.specs.Power.{power};
ghost use Rattle.num_roots.specs.Root.{root, root_bits, searched};
ghost use Rattle.num_roots.specs.Side.{Guessed, PowersAbout, searchable};

use num_halving::Missed;
use num_powers::whole_power;
use num_working::{checked, is_finite};

// m/k; `root` refuses one that is not below 2.
#[derive(Clone, Copy)]
pub struct Exponent {
    pub m: usize,
    pub k: usize,
}

// The k-th whole power of the float with the bits b.
fn power_at(b: u64, k: usize) -> f64
    requires { b < 0x7ff0_0000_0000_0000 }
    ensures { result ≡ power (of_bits binary64 b) k }
{
    whole_power(f64::from_bits(b), k)
}

// About log₂x, to ten digits. It leads to a guess alone, so nothing is promised of it.
pub(crate) fn about_log(x: f64) -> f64
    requires { T (nonneg x) }
{
    // x is z times a power of 2, and log₂z = ½ + (2/ln 2)·artanh w
    let b = f64::to_bits(x);
    let z = f64::from_bits(b % 0x0010_0000_0000_0000 + 0x3ff0_0000_0000_0000);
    let w = (z - 1.4142135623730951) / (z + 1.4142135623730951);
    let v = w * w;
    let vv = v * v;
    let high = 0.5770780163555853
        + v * 0.4121985831111324
        + vv * (0.3205988979753252 + v * 0.2623081892525388);
    let series = 2.8853900817779268 + v * 0.9617966939259756 + vv * high;
    let exponent = f64::from_bits(b / 0x0010_0000_0000_0000 % 2048 + 0x4330_0000_0000_0000)
        - 4503599627371519.0;
    exponent + 0.5 + w * series
}

// About 2ˡ, to ten digits, or 0 for an l out of all range: of it nothing is promised either.
fn about_power(l: f64) -> f64 {
    // l is a whole number, which 1.5·2⁵² rounds it to, and f
    let n = l + 6755399441055744.0;
    if n < 9007199254740992.0 {
        let f = l - (n - 6755399441055744.0);
        let ff = f * f;
        let high = 0.0013333558146428441
            + f * 0.00015403530393381606
            + ff * (0.000015252733804059838
                + f * 0.0000013215486790144305
                + ff * 0.00000010178086009239696);
        let part = 1.0
            + f * 0.6931471805599453
            + ff * (0.2402265069591007 + f * 0.05550410866482158)
            + ff * ff * (0.009618129107628477 + f * high);
        let e = (f64::to_bits(n) % 4096 + 1023) % 4096 % 2047;
        return f64::from_bits(e * 0x0010_0000_0000_0000) * part;
    }
    0.0
}

// About yᵏ: by squares, and so with other roundings than the whole power.
pub(crate) fn about_whole_power(y: f64, k: usize) -> f64 {
    let mut p = 1.0;
    let mut square = y;
    let mut left = k;
    while 0 < left {
        if left % 2 == 1 {
            p = p * square;
        }
        square = square * square;
        left = left / 2;
    }
    p
}

// Bits near those of x^(m/k), for an x with about the logarithm l and about the m-th power t: a power of 2 and a Newton
// step. Whatever is guessed the search finds the same place, so no more is promised than that the guess lies within the
// search's ends.
fn bits_near(l: f64, e: Exponent, t: f64) -> Option<u64>
    requires { (e.k ≤ 51) × (e.m < 102) }
    ensures { IfSome result (λ at. (0 < at) × (at < 0x4130_0000_0000_0000)) }
{
    let m = e.m as u32;
    let k = e.k as u32;
    let y = about_power(l * ((m as f64) / (k as f64)));
    let p = about_whole_power(y, e.k);
    let g = y + y * ((t - p) * (1.0 / (t * (k as f64))));
    if 0.0 < g {
        let near = f64::to_bits(g);
        if 0 < near && near < 0x4130_0000_0000_0000 {
            return Some(near);
        }
    }
    None
}

// A place strictly between lo and hi to look at next: the guess, then a few ever wider steps past it, then the middle.
fn probe(lo: u64, hi: u64, guess: u64, width: u64) -> u64
    requires lo_bound { lo + 1 < hi }
    requires width_nonzero { 0 < width }
    ensures { (lo < result) × (result < hi) }
{
    if lo < guess && guess < hi {
        return guess;
    }
    if 64 < width {
        return lo + (hi - lo) / 2;
    }
    // width is 1 at the guess and then 2, 4, ..: the steps are 1, 2, ..
    let step = width - width / 2;
    if step < hi - lo {
        if guess <= lo {
            return lo + step;
        }
        return hi - step;
    }
    lo + (hi - lo) / 2
}

// Twice as wide, while it fits.
fn wider(width: u64) -> u64
    requires { 0 < width }
    ensures { width ≤ result }
{
    width.saturating_mul(2)
}

// The bits, from those of 0 to those of 2²⁰, where the k-th whole power passes t. A guess of 0 is as any other:
// it lies below every place, and the search looks further out.
fn crossing(t: f64, k: usize, guess: u64) -> Result<u64, Missed>
    requires t { T (nonneg t) }
    requires le_k { (1 ≤ k) × (k ≤ 51) }
    ensures { result ≡ root_bits k t }
{
    let mut lo = 0u64;
    let mut hi = 0x4130_0000_0000_0000u64;
    let mut width = 1u64;
    while lo + 1 < hi {
        let mid = probe(lo, hi, guess, width);
        width = wider(width);
        if t < power_at(mid, k) {
            hi = mid;
        } else {
            lo = mid;
        }
    }
    if hi < 0x4130_0000_0000_0000 {
        return Ok(lo);
    }
    if t < power_at(hi, k) {
        Ok(lo)
    } else {
        Err(Missed::Nowhere)
    }
}

// Whole powers of a float and its two neighbours.
#[derive(Clone, Copy)]
pub(crate) struct Three {
    below: f64,
    here: f64,
    above: f64,
}

// The k-th whole powers of x, y and z side by side in one loop: a processor works them in the time of one.
fn three_powers(x: f64, y: f64, z: f64, k: usize) -> Three
    requires { 1 ≤ k }
    ensures { (result.below ≡ power x k) × (result.here ≡ power y k) × (result.above ≡ power z k) }
{
    let mut below = x;
    let mut here = y;
    let mut above = z;
    // i is not read: the proof names it.
    for i in 1..k {
        below = below * x;
        here = here * y;
        above = above * z;
    }
    Three { below, here, above }
}

// For x above 0, and a k for which the ends of the search have a k-th whole power.
fn searched(x: f64, m: usize, k: usize) -> Option<f64>
    requires t { T (nonneg x) }
    requires le_k { (1 ≤ k) × (k ≤ 51) × (m < 102) }
    ensures { result ≡ searched m k x }
{
    let t = checked(whole_power(x, m))?;
    let near = bits_near(about_log(x), Exponent { m, k }, t).unwrap_or(0);
    let b = crossing(t, k, near).ok()?;
    Some(f64::from_bits(b))
}

// Any root, looked for from a guess outward.
fn looked_for(x: f64, e: Exponent) -> Option<f64>
    ensures { result ≡ root e x }
{
    let m = e.m;
    let k = e.k;
    if k <= m / 2 {
        return None;
    }
    if !is_finite(x) {
        return None;
    }
    if x < 0.0 {
        return None;
    }
    if x == 0.0 {
        return Some(0.0);
    }
    // The 52nd whole power of 2²⁰ is not finite.
    if 51 < k {
        return None;
    }
    searched(x, m, k)
}

// Whether x^(m/k) has to be searched for, and 2²⁰, the search's upper end, has a k-th whole power. Test by test as the
// definition has them: as one `&&` the proof didn't close.
pub(crate) fn searchable(x: f64, e: Exponent) -> bool
    ensures { result ≡ searchable e x }
{
    let m = e.m;
    let k = e.k;
    if k <= m / 2 {
        return false;
    }
    if 51 < k {
        return false;
    }
    if x < 0.0 {
        return false;
    }
    if x == 0.0 {
        return false;
    }
    is_finite(x)
}

// A root that has to be searched for, with the m-th whole power of x, which its k-th is to come to, and the bits of a guess.
#[derive(Clone, Copy)]
pub(crate) struct Guess {
    x: f64,
    e: Exponent,
    target: f64,
    at: u64,
    ghost guessed: { Guessed e x target at },
}

impl Guess {
    // For an x with about the logarithm l and about the m-th power `about`.
    pub(crate) fn new(x: f64, e: Exponent, target: f64, l: f64, about: f64) -> Option<Self>
        requires searched { T (searchable e x) }
        requires target { target ≡ power x e.m }
        ensures { IfSome result (λ g. (g.e ≡ e) × (g.x ≡ x)) }
    {
        let at = bits_near(l, e, about)?;
        Some(Guess { x, e, target, at })
    }

    // Of the guess and its neighbours.
    pub(crate) fn powers(self) -> Three
        ensures { PowersAbout self.at self.e.k result.below result.here result.above }
    {
        three_powers(
            f64::from_bits(self.at - 1),
            f64::from_bits(self.at),
            f64::from_bits(self.at + 1),
            self.e.k,
        )
    }

    // As a rule the root is the guess or the float below it, and is looked for only where it is neither. Which of the two
    // it is no processor foresees: the place is chosen and not branched to.
    pub(crate) fn root(self, p: Three) -> Option<f64>
        requires { PowersAbout self.at self.e.k p.below p.here p.above }
        ensures { result ≡ root self.e self.x }
    {
        let under = self.target < p.here;
        let place = if under { self.at - 1 } else { self.at };
        let shown = if under {
            p.below <= self.target
        } else {
            self.target < p.above
        };
        if shown {
            return Some(f64::from_bits(place));
        }
        looked_for(self.x, self.e)
    }
}

pub fn root(x: f64, e: Exponent) -> Option<f64>
    ensures { result ≡ root e x }
{
    if searchable(x, e) {
        let t = whole_power(x, e.m);
        if let Some(g) = Guess::new(x, e, t, about_log(x), t) {
            return g.root(g.powers());
        }
    }
    looked_for(x, e)
}
