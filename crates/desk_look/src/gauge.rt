// RULES 14.4: a gauge that can't tell how much a cylinder holds, since it stands by the vapour pressure.
ghost use Rattle.std.specs.Prelude.{◌≡◌, ◌≤◌};
ghost use Rattle.desk_look.specs.Gauge.{near, product_of, doubt_of, gauge_in, gauge};

use door_limits::{Limits, Range, is_outside};
use door_saturation::{Saturation, saturated_at};
use num_whole::whole_below;
use sheet_line::line::{Line, Reading};
use sheet_weigh::is_volume;

// The vapour pressure in Pa, and the milligrams of the cylinder full of vapour and full of liquid at it.
#[derive(Clone, Copy)]
pub struct Doubt {
    pub pressure: f64,
    pub vapour: Option<u64>,
    pub liquid: Option<u64>,
}

// Within 2 bar, in Pa, both ends inside.
fn is_near(p: f64, saturated: f64) -> bool
    ensures { result ≡ near p saturated }
{
    !is_outside(
        Range {
            from: -200000.0,
            to: 200000.0,
        },
        p - saturated,
    )
}

// RULES 6.5
fn product_of(rho: f64, v: u64) -> Option<u64>
    requires { v ≤ 1_000_000 }
    ensures { result ≡ product_of rho v }
{
    whole_below(rho * (v as f64))
}

#[tactic(auto, unfolding(crate::specs::Gauge::doubt_of))]
fn doubt_of(s: Saturation, v: u64) -> Doubt
    requires { v ≤ 1_000_000 }
    ensures { result ≡ doubt_of s v }
{
    Doubt {
        pressure: s.pressure,
        vapour: product_of(s.vapour, v),
        liquid: product_of(s.liquid, v),
    }
}

#[tactic(auto, unfolding(crate::specs::Gauge::gauge_in))]
fn gauge_in(limits: Limits, t: f64, p: f64, v: u64) -> Option<Doubt>
    ensures { result ≡ gauge_in limits t p v }
{
    if !is_volume(v) {
        return None;
    }
    let s = saturated_at(limits, t).ok()?;
    is_near(p, s.pressure).then(|| doubt_of(s, v))
}

#[tactic(auto, unfolding(crate::specs::Gauge::gauge))]
pub fn gauge_of(limits: Limits, l: Line<f64>) -> Option<Doubt>
    ensures { result ≡ gauge limits l }
{
    let _ = l.number?;
    let v = l.volume?;
    let t = l.temperature?;
    match l.reading {
        Reading::Pressure(p) => gauge_in(limits, t, p, v),
        _ => None,
    }
}
