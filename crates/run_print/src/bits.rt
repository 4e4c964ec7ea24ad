// What the programs that run figures say, one a line: numbers as the sixteen hexadecimal digits of their bits, since a
// printed decimal could hide the last one.
use num_working::is_finite;

// The number of standard output.
pub const STDOUT: i32 = 1;

pub fn say(text: &[u8]) {
    io::write_all(STDOUT, text);
}

// A whole number after words of what it is.
pub fn numbered(text: &[u8], n: u64) {
    say(text);
    io::print_decimal(STDOUT, n);
}

pub fn show(x: f64) {
    if is_finite(x) {
        io::print_hex(STDOUT, f64::to_bits(x), 16);
    } else {
        say(b"not finite");
    }
}

// The end of a line: what was worked, or that it was refused.
pub fn tell(w: Option<f64>) {
    say(b" is ");
    match w {
        Some(x) => show(x),
        None => say(b"refused"),
    }
    say(b"\n");
}

// A figure at x, or of it, as its name says.
pub fn figure(name: &[u8], x: f64, w: Option<f64>) {
    say(name);
    show(x);
    tell(w);
}
