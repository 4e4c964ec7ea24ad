// 002's sample points against the library (RULES 8.5), in mW/(m K), each at one unit of its last printed digit: the one
// that is for the empirical enhancement, by the density door; the one without an enhancement; and of its table of
// recommended values those where it has none. A line a point, then points that must not be found right, and last a
// state whose conductivity fails, which no door gives.
#![tactic(auto)]

use door_answers::refusal_number;
use door_conductivity::{Carried, with_conductivity};
use door_density::from_density;
use door_limits::document_01;
use door_pressure::from_pressure;
use eos_conductivity::{background_at, dilute_at};
use eos_state::{Phase, State};
use refusal::Refusal;
use run_print::bits::{numbered, say};
use run_print::decimal::{Decimal, read_decimal};

fn is_near(x: f64, d: Decimal) -> bool {
    let from = d.value(1.0) - d.unit(1.0);
    let to = d.value(1.0) + d.unit(1.0);
    from < x && x < to
}

fn is_printed(w: Option<f64>, printed: &[u8]) -> bool {
    match (w, read_decimal(printed)) {
        (Some(x), Some(d)) => is_near(x, d),
        _ => false,
    }
}

fn compare(what: &[u8], w: Option<f64>, printed: &[u8]) {
    say(what);
    say(b", printed ");
    say(printed);
    if is_printed(w, printed) {
        say(b": within one unit\n");
    } else {
        say(b": not within one unit\n");
    }
}

fn in_milliwatts(w: Option<f64>) -> Option<f64> {
    w.map(|x| 1000.0 * x)
}

// By the density door, asked for it.
fn by_density(t: f64, rho: f64) -> Option<f64> {
    let c = with_conductivity(true, from_density(document_01(), t, rho)).ok()?;
    in_milliwatts(c.conductivity)
}

fn without_enhancement(t: f64, rho: f64) -> Option<f64> {
    in_milliwatts(background_at(t, rho))
}

// The same at the density that the pressure door gives.
fn without_enhancement_at(t: f64, p: f64) -> Option<f64> {
    let s = from_pressure(document_01(), t, p).ok()?;
    without_enhancement(s.t, s.rho)
}

fn table_7() {
    compare(
        b"Table 7, 310 K, 400 kg/m3, eq. (10)",
        by_density(310.0, 400.0),
        b"76.05",
    );
    compare(
        b"Table 7, 310 K, 400 kg/m3, no enhancement",
        without_enhancement(310.0, 400.0),
        b"39.92",
    );
}

// At 0 MPa it is the dilute gas alone; at 500 K the enhancement of 002's own model is too small to be seen.
fn table_8() {
    compare(b"Table 8, 240 K, 0 MPa", dilute_at(240.0), b"12.28");
    compare(b"Table 8, 300 K, 0 MPa", dilute_at(300.0), b"16.72");
    compare(b"Table 8, 400 K, 0 MPa", dilute_at(400.0), b"24.67");
    compare(b"Table 8, 500 K, 0 MPa", dilute_at(500.0), b"32.84");
    compare(b"Table 8, 600 K, 0 MPa", dilute_at(600.0), b"40.93");
    compare(b"Table 8, 700 K, 0 MPa", dilute_at(700.0), b"48.80");
    compare(b"Table 8, 800 K, 0 MPa", dilute_at(800.0), b"56.41");
    compare(b"Table 8, 900 K, 0 MPa", dilute_at(900.0), b"63.72");
    compare(b"Table 8, 1000 K, 0 MPa", dilute_at(1000.0), b"70.75");
    compare(b"Table 8, 1100 K, 0 MPa", dilute_at(1100.0), b"77.51");
    compare(
        b"Table 8, 500 K, 0.1 MPa",
        without_enhancement_at(500.0, 100000.0),
        b"32.88",
    );
    compare(
        b"Table 8, 500 K, 20 MPa",
        without_enhancement_at(500.0, 20000000.0),
        b"43.17",
    );
}

// The sample point moved by two units to either side; rows of Table 7 that are not for eq. (10); and a density that the
// door refuses. The comparison must be able to fail.
fn wrong_points() {
    compare(
        b"wrong: 310 K, 400 kg/m3, eq. (10)",
        by_density(310.0, 400.0),
        b"76.03",
    );
    compare(
        b"wrong: 310 K, 400 kg/m3, eq. (10)",
        by_density(310.0, 400.0),
        b"76.07",
    );
    compare(
        b"wrong: 250 K, 2 kg/m3, eq. (10)",
        by_density(250.0, 2.0),
        b"13.05",
    );
    compare(
        b"wrong: 250 K, 1058 kg/m3, eq. (10)",
        by_density(250.0, 1058.0),
        b"140.00",
    );
    compare(
        b"wrong: 250 K, 0 kg/m3, eq. (10)",
        by_density(250.0, 0.0),
        b"12.99",
    );
}

// Between the saturated densities, where the divisor of eq. (10) is 0: made up, with no other number.
fn at_a_pole() -> State {
    State {
        t: 272.4,
        p: 0.0,
        rho: 757.12363082418,
        u: 0.0,
        h: 0.0,
        cv: 0.0,
        cp: 0.0,
        w: 0.0,
        phase: Phase::Liquid,
        fallen: 0,
    }
}

fn tell_refusal(c: Result<Carried, Refusal>) {
    match c {
        Ok(_) => say(b"answered\n"),
        Err(refusal) => {
            numbered(b"refused by ", u64::from(refusal_number(Err(refusal))));
            say(b"\n");
        }
    }
}

fn pole() {
    say(b"a state at a pole of eq. (10), asked for its conductivity: ");
    tell_refusal(with_conductivity(true, Ok(at_a_pole())));
    say(b"the same, not asked for it: ");
    tell_refusal(with_conductivity(false, Ok(at_a_pole())));
}

fn main() {
    table_7();
    table_8();
    wrong_points();
    pole();
}
