// RULES 14.3 and 14.4: a cylinder's line and its warnings.
#![tactic(auto)]

use desk_look::gauge::Doubt;
use desk_look::held::{Held, Look, Weight, is_heavy};
use desk_paper::paper::Paper;
use desk_units::{bar, celsius, density, kilograms_down, pressure, thousandth};
use eos_state::Phase;
use refusal::Refusal;
use sheet_line::cylinder::{Cylinder, Kind};

fn say_field(p: Paper, f: Option<u64>) -> Paper {
    match f {
        None => p.say(b"-"),
        Some(n) => p.say_number(n),
    }
}

fn say_temperature(p: Paper, f: Option<u64>) -> Paper {
    p.say_figure(f.map(celsius)).say(b" C")
}

fn say_bar(p: Paper, f: Option<u64>) -> Paper {
    p.say_figure(f.map(bar)).say(b" bar")
}

fn say_value(p: Paper, kind: Kind, f: Option<u64>) -> Paper {
    match kind {
        Kind::Pressure => say_bar(p, f),
        Kind::Density => p.say_figure(f.map(thousandth)).say(b" kg/m3"),
        Kind::Weighed => p.say_figure(f.map(thousandth)).say(b" kg"),
    }
}

fn say_phase(p: Paper, phase: Phase) -> Paper {
    match phase {
        Phase::Vapour => p.say(b"vapour"),
        Phase::Liquid => p.say(b"liquid"),
        Phase::Supercritical => p.say(b"supercritical"),
    }
}

fn say_read(p: Paper, c: Cylinder) -> Paper {
    let p = say_temperature(p, c.temperature).say(b", ");
    say_value(p, c.kind, c.value)
        .say(b", ")
        .say_figure(c.volume.map(thousandth))
        .say(b" L: ")
}

fn say_held(p: Paper, h: Held) -> Paper {
    let p = p
        .say_shown(kilograms_down(h.mg.0))
        .say(b" kg, ")
        .say_figure(density(h.rho))
        .say(b" kg/m3, ");
    say_phase(p, h.phase).say(b"\n")
}

fn say_weight(p: Paper, x: Weight) -> Paper {
    p.say_shown(kilograms_down(x.mg.0)).say(b" kg, weighed\n")
}

// Behind the words of 30, the first line that has the cylinder's number.
fn say_first(p: Paper, n: Refusal, first: Option<usize>) -> Paper {
    match (n, first) {
        (Refusal(30), Some(i)) => p.say(b" It stands in L ").say_number(i as u64).say(b"."),
        _ => p,
    }
}

fn say_doubt(p: Paper, d: Doubt, c: Cylinder) -> Paper {
    let p = say_temperature(p.say(b"the gauge can't tell. At "), c.temperature)
        .say(b" the vapour pressure is ")
        .say_figure(pressure(d.pressure))
        .say(b" bar, and ");
    say_bar(p, c.value)
        .say(b" is within 2 bar of it. At the vapour pressure the cylinder holds ")
        .say_mass(d.vapour)
        .say(b" kg if all is vapour, ")
        .say_mass(d.liquid)
        .say(
            b" kg if all is liquid, and anything between if it holds both. Weigh it and write W and the grams of agent in the place of P and the pressure, or warm it evenly to 40 to 45 C, minding its pressure, and read again.\n",
        )
}

fn say_dense(p: Paper, h: Held) -> Paper {
    p.say_figure(density(h.rho)).say(
        b" kg/m3 is more than a cylinder is filled with (750 kg/m3). Check its volume and its reading.\n",
    )
}

fn say_overfull(p: Paper, c: Cylinder) -> Paper {
    p.say_figure(c.value.map(thousandth))
        .say(b" kg in ")
        .say_figure(c.volume.map(thousandth))
        .say(
            b" L is more than a cylinder is filled with (750 kg/m3). Check its volume, and that the empty cylinder's weight was taken off.\n",
        )
}

// A file's name and a colon, where there is one.
fn say_front(p: Paper, name: &[u8]) -> Paper {
    if name.is_empty() {
        return p;
    }
    p.say(name).say(b": ")
}

// A cylinder's line: its place among them, what stands in it, what it comes to, what its gauge leaves open, and the first
// line that has its number.
#[derive(Clone, Copy)]
pub struct Told {
    pub place: usize,
    pub cylinder: Cylinder,
    pub look: Look,
    pub doubt: Option<Doubt>,
    pub first: Option<usize>,
}

impl Told {
    // Which line, and which cylinder.
    fn say_place(&self, p: Paper) -> Paper {
        let p = p
            .say(b"L ")
            .say_number(self.place as u64)
            .say(b", cylinder ");
        say_field(p, self.cylinder.number).say(b": ")
    }

    pub fn say_line(&self, p: Paper) -> Paper {
        let p = say_read(self.say_place(p), self.cylinder);
        match self.look {
            Look::Mass(h) => say_held(p, h),
            Look::Weighed(x) => say_weight(p, x),
            Look::Refused(n) => {
                say_first(p.say(b"refused by ").say_refused(n), n, self.first).say(b"\n")
            }
        }
    }

    fn say_heavy(&self, p: Paper) -> Paper {
        match self.look {
            Look::Mass(h) => say_dense(p, h),
            Look::Weighed(_) => say_overfull(p, self.cylinder),
            Look::Refused(_) => p,
        }
    }

    // Each after the name.
    pub fn say_warnings(&self, p: Paper, name: &[u8]) -> Paper {
        let mut p = p;
        if let Some(d) = self.doubt {
            p = say_doubt(self.say_place(say_front(p, name)), d, self.cylinder);
        }
        if is_heavy(self.look) {
            p = self.say_heavy(self.say_place(say_front(p, name)));
        }
        p
    }
}
