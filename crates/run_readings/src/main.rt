// The readings of RULES 8.1 and 8.2 but those of a sheet, and more: powers, exponentials and roots, and states by the
// two doors, whose bits were worked elsewhere (crosscheck/numerics.py and doors.py). One a line, numbers as the sixteen
// hexadecimal digits of their bits.
#![tactic(auto)]

mod doors;

use eos_constants::{Printed, worked_as};
use num_exponential::exponential::exponential;
use num_powers::whole_power;
use num_roots::root::{Exponent, root};
use run_print::bits::{figure, numbered, say, show};

fn root_of(x: f64, m: usize, k: usize) {
    numbered(b"root ", m as u64);
    numbered(b"/", k as u64);
    figure(b" of ", x, root(x, Exponent { m, k }));
}

fn printed_root_of(x: f64, name: &[u8], printed: Printed) {
    figure(name, x, root(x, worked_as(printed)));
}

fn power_of(x: f64, n: usize) {
    numbered(b"power ", n as u64);
    figure(b" of ", x, Some(whole_power(x, n)));
}

// The answer, and whether it says that x was below −36.
fn e_to(x: f64) {
    say(b"e to ");
    show(x);
    say(b" is ");
    match exponential(x) {
        Some(s) => {
            show(s.value);
            numbered(b" fallen ", s.fallen as u64);
        }
        None => say(b"refused"),
    }
    say(b"\n");
}

fn exponentials() {
    for x in [
        0.0,
        -0.0,
        -701.0,
        -700.0,
        -700.0000000000001,
        700.0,
        700.0000000000001,
        1.0 / 0.0,
        -1.0 / 0.0,
        0.0 / 0.0,
        1.0,
        -1.0,
        -0.0001220703125,
        -36.5,
        0.3,
        12.25,
        -123.456,
        650.1,
        -1e-300,
        -36.0,
        -36.00000000000001,
        -35.99999999999999,
        36.00000000000001,
        36.5,
        -37.0,
    ] {
        e_to(x);
    }
}

// At exponents as 004 prints them.
fn printed_roots_of(x: f64) {
    printed_root_of(x, b"root 0.34 of ", Printed::Of0_34);
    printed_root_of(x, b"root 10/6 of ", Printed::Of10_6);
    printed_root_of(x, b"root 0.875 of ", Printed::Of0_875);
    printed_root_of(x, b"root 0.925 of ", Printed::Of0_925);
}

fn roots_of(x: f64) {
    root_of(x, 1, 2);
    root_of(x, 1, 3);
    root_of(x, 2, 3);
    root_of(x, 3, 2);
    root_of(x, 5, 3);
    root_of(x, 11, 6);
    root_of(x, 7, 8);
    root_of(x, 37, 40);
    root_of(x, 17, 50);
    printed_roots_of(x);
}

fn edges() {
    root_of(4.0, 1, 2);
    root_of(0.0, 1, 2);
    root_of(-0.0, 17, 50);
    root_of(1.0, 1, 2);
    root_of(-1.0, 1, 2);
    root_of(1.0 / 0.0, 1, 2);
    root_of(0.0 / 0.0, 1, 2);
    root_of(2.0, 2, 1);
    root_of(2.0, 0, 0);
    root_of(2.0, 0, 1);
    root_of(2.0, 1, 51);
    root_of(2.0, 1, 52);
    root_of(0.0, 1, 52);
    root_of(1099511627775.9999, 1, 2);
    root_of(1099511627776.0, 1, 2);
    root_of(5e-324, 1, 2);
    root_of(5e-324, 3, 2);
    root_of(1e-200, 5, 3);
    root_of(1e-308, 37, 40);
    root_of(1e300, 3, 2);
    root_of(1e-17, 2, 3);
}

fn powers() {
    power_of(2.0, 10);
    power_of(0.1, 0);
    power_of(0.1, 1);
    power_of(1.1, 10);
    power_of(1.3972, 28);
    power_of(1e200, 2);
}

fn main() {
    powers();
    exponentials();
    edges();
    for x in [0.000001, 0.0712890625, 0.7, 1.0, 1.4042, 17.77, 1000.0] {
        roots_of(x);
    }
    doors::run();
}
