// RULES 6.1 and 6.3: a cylinder's line as it is written: `C`, the cylinder number, the temperature, `P`, `D` or `W`, the
// value, and the volume.
ghost use Rattle.std.specs.Prelude.{drop};
ghost use Rattle.sheet_text.specs.Place.{Reads};
ghost use Rattle.sheet_line.specs.Cylinder.{kind, reading, cylinder};

use sheet_text::{read_field_after, read_field_to, skip};

#[derive(Clone, Copy)]
pub enum Kind {
    Pressure,
    Density,
    Weighed,
}

#[derive(Clone, Copy)]
pub struct Cylinder {
    pub number: Option<u64>,
    pub temperature: Option<u64>,
    pub kind: Kind,
    pub value: Option<u64>,
    pub volume: Option<u64>,
}

#[tactic(auto, using(crate::proofs::Cylinders::kind_steps))]
fn read_kind(s: &[u8], at: usize) -> Option<(Kind, usize)>
    ensures { Reads s.now at (kind (drop at s.now)) result }
{
    let k = match *s.get(at)? {
        b'P' => Kind::Pressure,
        b'D' => Kind::Density,
        b'W' => Kind::Weighed,
        _ => return None,
    };
    Some((k, at + 1))
}

// The rest of a line whose number and temperature are read.
#[tactic(auto, unfolding(crate::specs::Cylinder::reading))]
fn read_reading(
    s: &[u8],
    at: usize,
    number: Option<u64>,
    temperature: Option<u64>,
) -> Option<(Cylinder, usize)>
    ensures { Reads s.now at (reading number temperature (drop at s.now)) result }
{
    let (kind, space_at) = read_kind(s, at)?;
    let value_at = skip(s, space_at, b' ')?;
    let (value, volume_at) = read_field_to(s, value_at, b' ')?;
    let (volume, next) = read_field_to(s, volume_at, b'\n')?;
    let c = Cylinder {
        number,
        temperature,
        kind,
        value,
        volume,
    };
    Some((c, next))
}

#[tactic(auto, unfolding(crate::specs::Cylinder::cylinder), using(sheet_text::proofs::Places::reads_from))]
pub fn read_cylinder(s: &[u8], at: usize) -> Option<(Cylinder, usize)>
    ensures { Reads s.now at (cylinder (drop at s.now)) result }
{
    let (number, temperature_at) = read_field_after(s, at, b'C', b' ')?;
    let (temperature, kind_at) = read_field_to(s, temperature_at, b' ')?;
    read_reading(s, kind_at, number, temperature)
}
