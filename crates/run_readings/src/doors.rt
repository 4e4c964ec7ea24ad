// The doors: the three rows of RULES 8.3, the temperatures and pressures of RULES 8.1, the ends of each range and the
// floats beside them, both sides of the saturation line, the edges of the critical box, both sides of the melting line
// (RULES 8.4), the states of docs/ARRANGEMENT.md, section 12, and what is no number; then doors that are asked for the
// thermal conductivity too (RULES 5.5). Bits and counts worked elsewhere (crosscheck/doors.py).
use door_answers::refusal_number;
use door_conductivity::{Carried, with_conductivity};
use door_density::from_density;
use door_limits::{Limits, document_01};
use door_pressure::from_pressure;
use eos_state::{Phase, State};
use refusal::Refusal;
use run_print::bits::{numbered, say, show};

fn tell_phase(phase: Phase) {
    match phase {
        Phase::Vapour => say(b" vapour"),
        Phase::Liquid => say(b" liquid"),
        Phase::Supercritical => say(b" supercritical"),
    }
}

fn tell_number(name: &[u8], x: f64) {
    say(name);
    show(x);
}

fn tell_state(x: State) {
    tell_number(b" T ", x.t);
    tell_number(b" p ", x.p);
    tell_number(b" rho ", x.rho);
    tell_number(b" u ", x.u);
    tell_number(b" h ", x.h);
    tell_number(b" cv ", x.cv);
    tell_number(b" cp ", x.cp);
    tell_number(b" w ", x.w);
    numbered(b" fallen ", x.fallen as u64);
}

fn tell_carried(c: Carried) {
    tell_phase(c.state.phase);
    tell_state(c.state);
    if let Some(x) = c.conductivity {
        tell_number(b" conductivity ", x);
    }
}

fn tell_answer(c: Result<Carried, Refusal>) {
    match c {
        Ok(x) => tell_carried(x),
        Err(refusal) => numbered(b" refused by ", u64::from(refusal_number(Err(refusal)))),
    }
    say(b"\n");
}

// What a door says at a temperature and what it takes beside, by its name; asked for the conductivity too, or not.
fn ask<D: FnOnce(Limits, f64, f64) -> Result<State, Refusal>>(
    door: D,
    name: &[u8],
    asked: bool,
    t: f64,
    x: f64,
)
    requires { D.IsAlwaysCallable door }
{
    if asked {
        say(b"asked: ");
    }
    tell_number(b"T ", t);
    tell_number(name, x);
    tell_answer(with_conductivity(asked, door(document_01(), t, x)));
}

fn ask_pressure(asked: bool, t: f64, p: f64) {
    ask(from_pressure, b" and p ", asked, t, p);
}

fn ask_density(asked: bool, t: f64, rho: f64) {
    ask(from_density, b" and rho ", asked, t, rho);
}

// The density that the pressure door gives, put to the other door.
fn by_both(asked: bool, t: f64, p: f64) {
    if let Ok(x) = from_pressure(document_01(), t, p) {
        ask_density(asked, x.t, x.rho);
    }
}

fn pressures() {
    for (t, p) in [
        (250.0, 5000000.0),
        (300.0, 5000000.0),
        (400.0, 5000000.0),
        (216.5919, 5000000.0),
        (216.592, 5000000.0),
        (523.0, 5000000.0),
        (523.0001, 5000000.0),
        (300.0, 9999.0),
        (300.0, 10000.0),
        (300.0, 30000001.0),
        (303.1282, 7000000.0),
        (303.1281, 7000000.0),
        (216.59199999999998, 5000000.0),
        (523.0000000000001, 5000000.0),
        (300.0, 9999.999999999998),
        (300.0, 10000.000000000002),
        (300.0, 29999999.999999996),
        (300.0, 30000000.0),
        (300.0, 30000000.000000004),
        (216.592, 10000.0),
        (216.592, 30000000.0),
        (523.0, 10000.0),
        (523.0, 30000000.0),
        (-0.0, 5000000.0),
        (5e-324, 5000000.0),
        (1e308, 5000000.0),
        (-300.0, 5000000.0),
        (300.0, -0.0),
        (300.0, 5e-324),
        (300.0, 1e308),
        (200.0, 1.0),
        (250.0, 1785029.0653665012),
        (250.0, 1785029.065366501),
        (250.0, 1785029.0653665015),
        (303.12819999999994, 7000000.0),
        (303.1282, 6999999.999999999),
        (303.1282, 8000000.0),
        (303.1282, 8000000.000000001),
        (305.1282, 7000000.0),
        (305.1282, 8000000.0),
        (305.12820000000005, 8000000.0),
        (304.0, 7500000.0),
        (304.12819999999994, 6900000.0),
        (304.1282, 6900000.0),
        (304.1282, 8100000.0),
        (304.12820000000005, 12000000.0),
        (216.59200000000004, 5000000.0),
        (522.9999999999999, 5000000.0),
        (300.0, -5000000.0),
        (305.1282, 6999999.999999999),
        (305.1282, 8000000.000000001),
        (217.0, 500000.0),
        (217.0, 600000.0),
        (303.1, 7100000.0),
        (303.1, 7300000.0),
        (217.0, 5000000.0),
        (217.0, 2429700.0),
        (217.0, 2429701.0),
        (217.0, 2429700.0645423313),
        (217.0, 2429700.0645423317),
        (217.546, 5000000.0),
        (217.5461, 5000000.0),
        (217.5460227897887, 5000000.0),
        (217.54602278978874, 5000000.0),
        (222.7145, 30000000.0),
        (222.7146, 30000000.0),
        (216.592, 517950.0),
        (216.592, 517950.00000000006),
        (216.592, 517951.0),
        (216.592, 30000001.0),
        (216.592003, 517964.0),
        (216.592003, 517965.0),
        (217.6, 5000000.0),
        (230.0, 20000000.0),
        (304.1282, 30000000.0),
        (350.0, 20000000.0),
    ] {
        ask_pressure(false, t, p);
    }
}

fn densities() {
    for (t, rho) in [
        (250.0, 1058.86),
        (300.0, 128.4),
        (400.0, 72.804),
        (250.0, 46.646153870768245),
        (250.0, 46.64615387076825),
        (250.0, 500.0),
        (250.0, 1045.9895507737242),
        (250.0, 1045.9895507737244),
        (523.0, 1300.0),
        (300.0, 0.1),
        (523.0, 0.1),
        (523.0, 0.2),
        (216.59199999999998, 100.0),
        (523.0000000000001, 100.0),
        (300.0, 0.09999999999999999),
        (300.0, 1300.0000000000002),
        (300.0, -0.0),
        (300.0, 5e-324),
        (-0.0, 100.0),
        (303.1282, 350.7),
        (303.1282, 350.69999999999993),
        (303.12819999999994, 350.7),
        (305.1282, 584.5),
        (305.1282, 584.5000000000001),
        (305.12820000000005, 584.5),
        (304.1282, 467.6),
        (304.12819999999994, 340.0),
        (304.1282, 340.0),
        (304.1282, 600.0),
        (216.592, 1178.0),
        (216.59200000000004, 1178.0),
        (522.9999999999999, 100.0),
        (5e-324, 100.0),
        (1e308, 100.0),
        (-300.0, 100.0),
        (300.0, 1e308),
        (300.0, -100.0),
        (300.0, 0.10000000000000002),
        (300.0, 1299.9999999999998),
        (303.1282, 584.5),
        (303.1282, 584.5000000000001),
        (305.1282, 350.7),
        (305.1282, 350.69999999999993),
        (217.0, 13.0),
        (217.0, 1177.0),
        (303.1, 300.0),
        (303.1, 560.0),
        (217.0, 1186.152),
        (217.0, 1180.969),
        (217.0, 1180.97),
        (216.592, 13.76),
        (216.592, 13.761),
        (216.592, 1178.6),
        (216.592, 1178.5),
        (216.5983, 1178.5025589536633),
        (216.5984, 1178.5022008008582),
    ] {
        ask_density(false, t, rho);
    }
}

fn no_numbers() {
    let infinity = 1.0 / 0.0;
    let nan = 0.0 / 0.0;
    ask_pressure(false, infinity, 5000000.0);
    ask_pressure(false, nan, 5000000.0);
    ask_pressure(false, 300.0, -infinity);
    ask_pressure(false, 200.0, nan);
    ask_pressure(false, -infinity, 5000000.0);
    ask_pressure(false, 300.0, infinity);
    ask_pressure(false, 300.0, nan);
    ask_density(false, -infinity, 100.0);
    ask_density(false, nan, nan);
    ask_density(false, 300.0, infinity);
    ask_density(false, 300.0, nan);
    ask_density(false, nan, 100.0);
}

// Asked for the conductivity too: answered, the last two of each door beside the critical box, and refused by 3, 4, 5, 6,
// 8 and 19.
fn asked_by_pressure() {
    ask_pressure(true, 250.0, 5000000.0);
    ask_pressure(true, 300.0, 5000000.0);
    ask_pressure(true, 400.0, 5000000.0);
    ask_pressure(true, 523.0, 30000000.0);
    ask_pressure(true, 303.12819999999994, 7000000.0);
    ask_pressure(true, 305.12820000000005, 8000000.0);
    ask_pressure(true, 0.0 / 0.0, 5000000.0);
    ask_pressure(true, 216.5919, 5000000.0);
    ask_pressure(true, 300.0, 9999.0);
    ask_pressure(true, 303.1282, 7000000.0);
    ask_pressure(true, 250.0, 1785029.0653665012);
    ask_pressure(true, 217.0, 5000000.0);
}

fn asked_by_density() {
    ask_density(true, 310.0, 400.0);
    ask_density(true, 250.0, 2.0);
    ask_density(true, 250.0, 1058.0);
    ask_density(true, 523.0, 0.2);
    ask_density(true, 305.1282, 350.69999999999993);
    ask_density(true, 305.1282, 584.5000000000001);
    ask_density(true, 300.0, 1.0 / 0.0);
    ask_density(true, 523.0000000000001, 100.0);
    ask_density(true, 523.0, 1300.0);
    ask_density(true, 305.1282, 584.5);
    ask_density(true, 250.0, 500.0);
    ask_density(true, 217.0, 1186.152);
}

pub fn run() {
    pressures();
    densities();
    no_numbers();
    by_both(false, 250.0, 5000000.0);
    by_both(false, 300.0, 5000000.0);
    by_both(false, 400.0, 5000000.0);
    by_both(false, 217.0, 2429700.0645423313);
    by_both(false, 217.6, 5000000.0);
    by_both(false, 230.0, 20000000.0);
    asked_by_pressure();
    asked_by_density();
    by_both(true, 250.0, 5000000.0);
}
