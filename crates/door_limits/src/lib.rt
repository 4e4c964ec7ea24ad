// RULES 2.2, 2.3 and 5.1: what may be asked of a door, the critical box, and the ends of a search.
#![tactic(auto)]

ghost use Rattle.std.specs.Prelude.{◌≡◌};
ghost use Rattle.door_limits.specs.Limits.{outside, document01, search_ends};

#[derive(Clone, Copy)]
pub struct Range {
    pub from: f64,
    pub to: f64,
}

#[derive(Clone, Copy)]
pub struct Region {
    pub temperature: Range,
    pub pressure: Range,
    pub density: Range,
}

// A client's: what may be asked, and the critical box, its temperatures with its pressures for the pressure door and
// with its densities for the density door.
#[derive(Clone, Copy)]
pub struct Limits {
    pub asked: Region,
    pub critical: Region,
}

// Those of every search: its densities, of vapour up to so many times the saturated vapour's, of liquid from so many
// times the saturated liquid's.
#[derive(Clone, Copy)]
pub struct Ends {
    pub from: f64,
    pub to: f64,
    pub vapour: f64,
    pub liquid: f64,
}

const DOCUMENT_01: Limits = Limits {
    asked: Region {
        temperature: Range {
            from: 216.592,
            to: 523.0,
        },
        pressure: Range {
            from: 10000.0,
            to: 30000000.0,
        },
        density: Range {
            from: 0.1,
            to: 1300.0,
        },
    },
    critical: Region {
        temperature: Range {
            from: 303.1282,
            to: 305.1282,
        },
        pressure: Range {
            from: 7000000.0,
            to: 8000000.0,
        },
        density: Range {
            from: 350.7,
            to: 584.5,
        },
    },
};

pub fn document_01() -> Limits
    ensures { result ≡ document01 }
{
    DOCUMENT_01
}

pub fn search_ends() -> Ends
    ensures { result ≡ search_ends }
{
    Ends {
        from: 0.05,
        to: 1400.0,
        vapour: 1.01,
        liquid: 0.99,
    }
}

pub fn is_outside(r: Range, x: f64) -> bool
    ensures { result ≡ outside r x }
{
    x < r.from || r.to < x
}
