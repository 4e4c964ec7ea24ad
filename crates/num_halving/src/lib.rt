// RULES 4.5: where a figure passes its target, by halving: the bits at which it is not above while at the next it is, or why
// that is not known. Nothing is taken of the figure's shape (specs/Halving.antt; proofs/Halvings.antt).
#![tactic(auto)]

ghost use Rattle.std.specs.Prelude.{◌≡◌, ℕ, ◌<◌, true, Float, Some};
ghost use Rattle.std.specs.Float.Ieee.Scale.{finite};
ghost use Rattle.num_working.specs.Working.{Worked};
ghost use Rattle.num_halving.specs.Halving.{NotAbove, Above, halve};

#[derive(Clone, Copy)]
pub enum Missed {
    // no crossing
    Nowhere,
    // a figure could not be worked
    Broke,
}

// Where a figure can be worked: the bits of a number that is finite and has no minus sign.
#[derive(Clone, Copy)]
pub struct Place {
    pub bits: u64,
    pub ghost below_infinity: { bits < 0x7ff0_0000_0000_0000 },
}

// A figure that is worked at places. Where it is worked, it is finite.
pub trait Probed {
    ghost figure: { Self → ℕ → Worked };

    ghost sound: { (s : Self) (b : ℕ) (x : Float) → figure s b ≡ Some x → finite x ≡ true };

    fn at(&self, place: Place) -> Option<f64>
        ensures { result ≡ figure self.now place.bits };
}

// From where the figure is not above t to where it is above. Laid out where it is called: by itself it would have the
// whole of what is probed copied at each turn, from behind the reference.
#[inline(always)]
fn narrow<P: Probed>(probed: &P, t: f64, from: u64, to: Place) -> Result<u64, Missed>
    requires from_lt_to { from < to.bits }
    requires not_above { NotAbove (P.figure probed.now) t from }
    requires above { Above (P.figure probed.now) t to.bits }
    ensures { result ≡ halve (P.figure probed.now) t from to.bits }
{
    let mut lo = from;
    let mut hi = to.bits;
    while lo + 1 < hi {
        let mid = lo + (hi - lo) / 2;
        let x = probed.at(Place { bits: mid }).ok_or(Missed::Broke)?;
        if t < x {
            hi = mid;
        } else {
            lo = mid;
        }
    }
    Ok(lo)
}

pub fn halve<P: Probed>(probed: &P, t: f64, from: u64, to: Place) -> Result<u64, Missed>
    ensures { result ≡ halve (P.figure probed.now) t from to.bits }
{
    if to.bits <= from {
        return Err(Missed::Nowhere);
    }
    let low = probed.at(Place { bits: from }).ok_or(Missed::Broke)?;
    let high = probed.at(to).ok_or(Missed::Broke)?;
    if t < low {
        return Err(Missed::Nowhere);
    }
    if t < high {
        return narrow(probed, t, from, to);
    }
    Err(Missed::Nowhere)
}
