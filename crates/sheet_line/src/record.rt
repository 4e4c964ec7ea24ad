// RULES 6.4: a cylinder's line in the sheet's whole numbers, between the line as it is written and its figures.
ghost use Rattle.std.specs.Prelude.{◌≡◌};
ghost use Rattle.sheet_line.specs.Record.{recorded_of, record_of};

use crate::cylinder::{Cylinder, Kind};
use crate::line::{Line, Reading};
use sheet_mass::Grams;

fn recorded_of(k: Kind, f: Option<u64>) -> Reading<u64>
    ensures { result ≡ recorded_of k f }
{
    match (f, k) {
        (None, _) => Reading::Blank,
        (Some(n), Kind::Pressure) => Reading::Pressure(n),
        (Some(n), Kind::Density) => Reading::Density(n),
        (Some(n), Kind::Weighed) => Reading::Weighed(Grams(n)),
    }
}

// The temperature in 0.1 mK, the value in Pa, g/m³ or g, the volume in mL.
pub fn record_of(c: Cylinder) -> Line<u64>
    ensures { result ≡ record_of c }
{
    Line {
        number: c.number,
        temperature: c.temperature,
        reading: recorded_of(c.kind, c.value),
        volume: c.volume,
    }
}
