// The saturation figures and the melting pressure at temperatures, I₁ and I₂ of the ideal part at values of τ,
// pressures and states with the count of the terms that fell away, thermal conductivities, and saturation by itself; their
// bits and counts were worked elsewhere (crosscheck/equation.py, crosscheck/saturation.py). One figure a line.
#![tactic(auto)]

use door_limits::document_01;
use door_saturation::saturated_at;
use eos_brackets::Five;
use eos_densities::{liquid_density, vapour_density};
use eos_ideal::ideal_part;
use eos_isotherm::at_temperature;
use eos_melting::melting_pressure;
use eos_non_analytic::figures::add;
use eos_non_analytic::parts::{at_critical, near_critical};
use eos_rows::non_analytic_row;
use eos_saturation::vapour_pressure;
use eos_state::{Phase, State};
use eos_terms::term::at_density;
use equation::{conductivity_at, curve_at, pressure_on, state_on};
use num_working::checked;
use refusal::Refusal;
use run_print::bits::{figure, numbered, say, show, tell};

// The start of a line of a temperature and a density.
fn at(name: &[u8], t: f64, rho: f64) {
    say(name);
    show(t);
    also(rho);
}

fn pressure(t: f64, rho: f64) {
    at(b"pressure at ", t, rho);
    tell(pressure_on(curve_at(t), rho));
}

fn conductivity(t: f64, rho: f64) {
    at(b"conductivity at ", t, rho);
    tell(conductivity_at(t, rho));
}

// The eight numbers and the count, which don't hang on the phase, or that there is no state.
fn state(t: f64, rho: f64) {
    pressure(t, rho);
    at(b"state at ", t, rho);
    say(b" is");
    match state_on(curve_at(t), Phase::Supercritical, rho) {
        Some(s) => carried(s),
        None => say(b" refused"),
    }
    say(b"\n");
}

fn also(x: f64) {
    say(b" ");
    show(x);
}

fn carried(s: State) {
    for x in [s.t, s.p, s.rho, s.u, s.h, s.cv, s.cp, s.w] {
        also(x);
    }
    numbered(b" fallen ", s.fallen as u64);
}

fn saturated(t: f64) {
    figure(b"vapour pressure at ", t, vapour_pressure(t));
    figure(b"liquid density at ", t, liquid_density(t));
    figure(b"vapour density at ", t, vapour_density(t));
}

fn ideal_gas(tau: f64) {
    let i = ideal_part(tau);
    figure(b"I1 at ", tau, i.first);
    figure(b"I2 at ", tau, i.second);
}

// Saturation by itself (RULES 5.6).
fn saturation_at(t: f64) {
    say(b"saturation at ");
    show(t);
    say(b" is ");
    match saturated_at(document_01(), t) {
        Ok(s) => {
            show(s.pressure);
            also(s.vapour);
            also(s.liquid);
        }
        Err(Refusal(n)) => numbered(b"refused by ", u64::from(n)),
    }
    say(b"\n");
}

// From the triple point to the critical one, and where a pressure is 0, a density is not above 0, or a working fails.
fn saturations() {
    for t in [
        216.592,
        220.0,
        233.15,
        250.0,
        273.15,
        280.0,
        295.5,
        300.0,
        303.5,
        304.1,
        304.12,
        304.12819999999994,
        304.1282,
        250.29,
        267.1,
        217.64,
        298.53,
        271.99,
        305.0,
        50.0,
        20.0,
        3.1,
        2.9,
        1.0,
        0.4,
        1e-300,
        0.0,
        -0.0,
        -5.0,
        -1000.0,
        1e300,
        1.0 / 0.0,
        -1.0 / 0.0,
        0.0 / 0.0,
    ] {
        saturated(t);
    }
}

// Where another order of operations would show, from the triple point to the last temperature that may be asked, on both
// sides of 5 and of 30 MPa, beyond, where the pressure is below 0, and where the working fails.
fn meltings() {
    for t in [
        216.6478,
        216.9646,
        218.2975,
        218.3518,
        330.0,
        216.592,
        216.59199999999998,
        216.59200000000004,
        216.5920025,
        216.598387,
        217.0,
        217.5460227897887,
        217.54602278978874,
        222.7145,
        222.7146,
        250.0,
        304.1282,
        523.0,
        327.673,
        1100.0,
        216.4812,
        100.0,
        0.0,
        -0.0,
        -300.0,
        5e-324,
        1e140,
        1e151,
        1e152,
        1e300,
        -1e300,
        1.7976931348623157e308,
        1.0 / 0.0,
        -1.0 / 0.0,
        0.0 / 0.0,
    ] {
        figure(b"melting pressure at ", t, melting_pressure(t));
    }
}

// From 524 K down to the triple point, and where an exponential is 0 or refused, a divisor is 0 or not finite, or one
// of the two fails alone.
fn ideal_gases() {
    for tau in [
        0.58,
        0.8,
        1.0,
        1.2,
        1.4,
        1.4041,
        200.0,
        230.0,
        1e160,
        1e200,
        1e300,
        3e-17,
        1e-17,
        1e-154,
        1e-160,
        1e-200,
        0.0,
        -0.0,
        -1.0,
        -13.0,
        -20.0,
        -25.7,
        -25.85,
        -30.0,
        1.0 / 0.0,
        -1.0 / 0.0,
        0.0 / 0.0,
    ] {
        ideal_gas(tau);
    }
}

fn of_a_row(x: f64) {
    say(b"rows 40 to 42");
    tell(checked(x));
}

fn three(a: f64, b: f64, c: f64) {
    of_a_row(a);
    of_a_row(b);
    of_a_row(c);
}

// The figures of the non-analytic rows by themselves, which are small in the sums: δφ_δ of each row, δ²φ_δδ, and so on.
// Added to −0 a number is itself.
fn non_analytic(t: f64, rho: f64) {
    let iso = at_temperature(t);
    let tau = iso.tau;
    let delta = rho / 467.6;
    let c = at_critical(near_critical(delta), tau);
    let none = Five {
        d: -0.0,
        dd: -0.0,
        t: -0.0,
        tt: -0.0,
        dt: -0.0,
    };
    let psis = at_density(false, iso, delta).point.psis;
    let r40 = add::<true>(
        none,
        non_analytic_row(0),
        c.near,
        c.first,
        psis[0],
        delta,
        tau,
    );
    let r41 = add::<true>(
        none,
        non_analytic_row(1),
        c.near,
        c.second,
        psis[0],
        delta,
        tau,
    );
    let r42 = add::<true>(
        none,
        non_analytic_row(2),
        c.near,
        c.third,
        psis[1],
        delta,
        tau,
    );
    three(r40.d, r41.d, r42.d);
    three(r40.dd, r41.dd, r42.dd);
    three(r40.t, r41.t, r42.t);
    three(r40.tt, r41.tt, r42.tt);
    three(r40.dt, r41.dt, r42.dt);
}

// Vapour, liquid, supercritical, near the critical point, at δ = 1, and at the corners of the ranges.
fn states() {
    state(216.592, 0.1);
    state(216.592, 1178.46);
    state(250.0, 1058.86);
    state(250.0, 46.644);
    state(273.15, 500.0);
    state(300.0, 128.4);
    state(300.0, 1300.0);
    state(303.9, 420.3);
    state(304.1282, 467.5);
    state(304.2, 467.6);
    state(305.0, 467.6);
    state(306.5, 530.25);
    state(330.0, 701.2);
    state(400.0, 72.804);
    state(450.0, 467.6);
    state(523.0, 0.05);
    state(523.0, 1400.0);
    state(327.6, 596.9);
    state(321.9, 282.0);
    state(316.0, 725.1);
    state(305.5, 668.7);
    state(304.11, 490.7);
    state(311.1, 522.1);
}

// δ = τ = 1, where the working fails, and densities and temperatures that are no state's: some are answered all the
// same, since what is a state is not for the equation to say.
fn no_states() {
    state(304.1282, 467.6);
    state(300.0, 0.0);
    state(300.0, -1.0);
    state(0.0, 100.0);
    state(-300.0, 100.0);
    state(1e-300, 100.0);
    state(300.0, 1e300);
    state(300.0, 1.0 / 0.0);
    state(1.0 / 0.0, 100.0);
    state(0.0 / 0.0, 100.0);
    state(300.0, 0.0 / 0.0);
}

// Neighbouring floats on both sides of an argument of −36: from the first to the second of each pair the count grows by
// the rows named (docs/ARRANGEMENT.md, section 12).
fn fallen_states() {
    // rows 17 to 23
    state(300.0, 2805.6);
    state(300.0, 2805.6000000000004);
    // rows 24 to 26
    state(300.0, 1543.9811815831276);
    state(300.0, 1543.9811815831279);
    // rows 27 to 32
    state(230.0, 1145.381403725414);
    state(230.0, 1145.3814037254142);
    // row 33
    state(280.0, 957.4916661806428);
    state(280.0, 957.4916661806429);
    // row 34
    state(300.0, 849.6855892083086);
    state(300.0, 849.6855892083087);
    // row 35
    state(265.0, 1028.3337772507039);
    state(265.0, 1028.333777250704);
    // rows 36 and 37
    state(304.86379908770004, 1.0);
    state(304.8637990877001, 1.0);
    // row 38
    state(320.0, 61.459336211435975);
    state(320.0, 61.45933621143597);
    // row 39
    state(250.0, 1094.9220927601548);
    state(250.0, 1094.922092760155);
    // rows 40 and 41
    state(243.0, 1105.2842056135098);
    state(243.0, 1105.28420561351);
    // row 42
    state(235.153310960611, 3.0);
    state(235.15331096061098, 3.0);
    // row 33's argument is above 36, and is not counted
    state(1000.0, -981.96);
}

// 002's sample points (Table 7), liquid, vapour and supercritical states, and some beside the critical box, at δ = 1 and
// at ends of the ranges.
fn conductivities() {
    conductivity(310.0, 400.0);
    conductivity(250.0, 0.0);
    conductivity(250.0, 2.0);
    conductivity(250.0, 1058.0);
    conductivity(216.592, 1178.46);
    conductivity(230.0, 1172.07);
    conductivity(250.0, 1058.86);
    conductivity(300.0, 959.7);
    conductivity(220.0, 15.8);
    conductivity(250.0, 46.644);
    conductivity(300.0, 128.4);
    conductivity(304.1282, 340.0);
    conductivity(305.1282, 350.6);
    conductivity(305.1283, 467.6);
    conductivity(305.1282, 584.6);
    conductivity(350.0, 614.18);
    conductivity(400.0, 72.804);
    conductivity(523.0, 0.1012);
    conductivity(523.0, 300.0);
}

// Where another order of operations would show, and between the saturated densities, where e is raised to a number below
// 0, and at the critical point, where it is raised to 0.
fn conductivity_orders() {
    conductivity(454.9, 277.9);
    conductivity(518.3, 238.2);
    conductivity(314.8, 346.9);
    conductivity(319.9, 396.9);
    conductivity(323.2, 15.3);
    conductivity(329.2, 185.2);
    conductivity(385.1, 473.8);
    conductivity(344.2, 759.6);
    conductivity(252.0, 530.0);
    conductivity(254.0, 450.0);
    conductivity(304.1282, 467.6);
}

// Temperatures and densities that are no state's.
fn conductivity_edges() {
    // neighbouring floats, the second with a divisor of 0: in eq. (10), then in eq. (3)
    conductivity(272.4, 757.1236308241799);
    conductivity(272.4, 757.12363082418);
    conductivity(73.80111870258995, 400.0);
    conductivity(73.80111870258996, 400.0);
    // e raised to 700, and to the next number above, which is refused; to one above it by far; below −36; below −700
    conductivity(24318.763281782292, 467.6);
    conductivity(24318.763281782296, 467.6);
    conductivity(300.0, -3300.0);
    conductivity(300.0, 3273.2);
    conductivity(300.0, 5611.2);
    // no temperatures, no densities
    conductivity(0.0, 400.0);
    conductivity(-0.0, 400.0);
    conductivity(-300.0, 400.0);
    conductivity(1e-300, 400.0);
    conductivity(1e-110, 400.0);
    conductivity(1e-100, 400.0);
    conductivity(1e300, 400.0);
    conductivity(1.0 / 0.0, 400.0);
    conductivity(-1.0 / 0.0, 400.0);
    conductivity(0.0 / 0.0, 400.0);
    conductivity(300.0, -0.0);
    conductivity(300.0, -1.0);
    conductivity(300.0, 1e53);
    conductivity(300.0, 2e54);
    conductivity(300.0, 1e300);
    conductivity(300.0, 1.0 / 0.0);
    conductivity(300.0, -1.0 / 0.0);
    conductivity(300.0, 0.0 / 0.0);
}

// The ends of the range, 304.1282 and 523, each with the floats beside it; a spread; 0 to 29 C; and what is no temperature.
fn saturations_alone() {
    for t in [
        216.59199999999998,
        216.592,
        216.59200000000004,
        304.12819999999994,
        304.1282,
        304.12820000000005,
        522.9999999999999,
        523.0,
        523.0000000000001,
        216.6,
        220.0,
        230.0,
        240.0,
        250.0,
        260.0,
        270.0,
        280.0,
        290.0,
        300.0,
        303.1282,
        304.0,
        304.128,
        305.1282,
        273.15,
        278.15,
        283.15,
        288.15,
        293.15,
        298.15,
        302.15,
        0.0,
        -0.0,
        5e-324,
        -1.0,
        -250.0,
        1e300,
        1.0 / 0.0,
        -1.0 / 0.0,
        0.0 / 0.0,
    ] {
        saturation_at(t);
    }
}

fn main() {
    saturations();
    meltings();
    ideal_gases();
    states();
    no_states();
    fallen_states();
    non_analytic(290.1, 567.9);
    non_analytic(295.4, 588.8);
    non_analytic(312.2, 580.6);
    non_analytic(290.4, 404.2);
    conductivities();
    conductivity_orders();
    conductivity_edges();
    saturations_alone();
}
