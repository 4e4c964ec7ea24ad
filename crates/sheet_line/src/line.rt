// RULES 6.4: what a cylinder's line says, its figures in K, Pa and kg/m³, or the grams of a scale. A blank holds no
// number.
ghost use Rattle.std.specs.Prelude.{◌≡◌, drop};
ghost use Rattle.sheet_text.specs.Field.{Small};
ghost use Rattle.sheet_text.specs.Place.{Reads};
ghost use Rattle.sheet_line.specs.Cylinder.{AllSmall};
ghost use Rattle.sheet_line.specs.Record.{SmallReading, SmallRecord};
ghost use Rattle.sheet_line.specs.Line.{temperature_of, reading_of, line_from, line_of, line};

use crate::cylinder::{Cylinder, read_cylinder};
use crate::record::record_of;
use sheet_mass::Grams;

// A value with its kind; a blank has none. N is the sheet's whole numbers, or f64 for figures.
#[derive(Clone, Copy, Default)]
pub enum Reading<N> {
    #[default]
    Blank,
    Pressure(N),
    Density(N),
    Weighed(Grams),
}

#[derive(Clone, Copy, Default)]
pub struct Line<N> {
    pub number: Option<u64>,
    pub temperature: Option<N>,
    pub reading: Reading<N>,
    pub volume: Option<u64>,
}

// From 0.1 mK.
#[tactic(auto, unfolding(num_working::specs::Number::whole), using(crate::proofs::Lines::in_float_lem, crate::proofs::Lines::ten_thousand))]
fn temperature_of(f: Option<u64>) -> Option<f64>
    requires { Small f }
    ensures { result ≡ temperature_of f }
{
    Some(f? as f64 / 10000.0)
}

// From Pa or g/m³; grams stay grams.
#[tactic(auto, unfolding(num_working::specs::Number::whole), using(crate::proofs::Lines::in_float_lem, crate::proofs::Lines::thousand))]
fn reading_of(x: Reading<u64>) -> Reading<f64>
    requires { SmallReading x }
    ensures { result ≡ reading_of x }
{
    match x {
        Reading::Blank => Reading::Blank,
        Reading::Pressure(n) => Reading::Pressure(n as f64),
        Reading::Density(n) => Reading::Density(n as f64 / 1000.0),
        Reading::Weighed(g) => Reading::Weighed(g),
    }
}

fn line_from(r: Line<u64>) -> Line<f64>
    requires { SmallRecord r }
    ensures { result ≡ line_from r }
{
    Line {
        number: r.number,
        temperature: temperature_of(r.temperature),
        reading: reading_of(r.reading),
        volume: r.volume,
    }
}

#[tactic(auto, using(crate::proofs::Lines::small_record))]
fn line_of(c: Cylinder) -> Line<f64>
    requires { AllSmall c }
    ensures { result ≡ line_of c }
{
    line_from(record_of(c))
}

#[tactic(auto, unfolding(crate::specs::Line::line), using(crate::proofs::Printed::cylinder_small))]
pub fn read_line(s: &[u8], at: usize) -> Option<(Line<f64>, usize)>
    ensures { Reads s.now at (line (drop at s.now)) result }
{
    let (c, next) = read_cylinder(s, at)?;
    Some((line_of(c), next))
}
