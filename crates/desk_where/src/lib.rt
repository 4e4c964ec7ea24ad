// RULES 14.5: where a text stops being in the form, what is expected there, what there is, and a hint.
#![tactic(auto)]

ghost use Rattle.std.specs.Prelude.{◌≤◌};

use desk_form::stop::{Behind, Expected, Stop, stop_in};
use desk_form::wrong::{Wrong, first_wrong};
use desk_paper::paper::Paper;

fn say_expected(p: Paper, e: Expected) -> Paper {
    p.say(match e {
        Expected::Need => b"N",
        Expected::Cylinder => b"C",
        Expected::Letter => b"P, D or W",
        Expected::Space => b"a space",
        Expected::LineEnd => b"LF",
        Expected::Number => b"a digit or -",
        Expected::DigitOrSpace => b"a digit or a space",
        Expected::DigitOrLineEnd => b"a digit or LF",
    })
}

// What stands at a place.
#[derive(Clone, Copy)]
enum Found {
    End,
    Mark,
    Byte(u8),
}

// A byte order mark stands at the front alone.
fn found_at(s: &[u8], at: usize) -> Found {
    if at == 0 && s.starts_with(b"\xef\xbb\xbf") {
        return Found::Mark;
    }
    match s.get(at) {
        Some(b) => Found::Byte(*b),
        None => Found::End,
    }
}

fn say_byte(p: Paper, b: u8) -> Paper {
    match b {
        b'\r' => p.say(b"CR"),
        b'\n' => p.say(b"LF"),
        b' ' => p.say(b"a space"),
        b'\t' => p.say(b"a tab"),
        33..=126 => p.say(b"'").say(&[b]).say(b"'"),
        _ => p.say(b"byte ").say_number(u64::from(b)),
    }
}

fn say_there(p: Paper, t: Found) -> Paper {
    match t {
        Found::End => p.say(b"the end of the text"),
        Found::Mark => p.say(b"a byte order mark"),
        Found::Byte(b) => say_byte(p, b),
    }
}

// Of a digit, by what stands before it.
fn digit_hint(p: Paper, b: Behind) -> Paper {
    match b {
        Behind::Zero => p.say(b" No number has a 0 in front."),
        Behind::TenDigits => p.say(b" No number has more than ten digits."),
        Behind::Blank => p.say(b" No number is below 0: - alone is a blank."),
        Behind::Other => p,
    }
}

// Of a byte; front: its place is a line's front.
fn byte_hint(p: Paper, b: u8, x: Stop, front: bool) -> Paper {
    match (b, x.expected) {
        (b'0'..=b'9', _) => digit_hint(p, x.behind),
        (b'-', Expected::Letter) => p.say(b" A blank keeps its letter: P -, D - or W -."),
        (b'P' | b'D' | b'W', Expected::Number) => {
            p.say(b" What was not read is written -, in its place.")
        }
        (b'\n', _) if front => p.say(b" No line is empty."),
        (b'\r', _) => p.say(b" Lines end in LF alone, not in CR LF."),
        (b',' | b'.', _) => p.say(b" Every number is whole: scorer --help shows the units."),
        (b' ', _) => p.say(
            b" One space stands between two parts, and none at a line's front or end.",
        ),
        _ => p,
    }
}

fn say_hint(p: Paper, t: Found, x: Stop, front: bool) -> Paper {
    match t {
        Found::End => p.say(b" Every line ends in LF, the last too."),
        Found::Mark => p.say(b" Save the text without it."),
        Found::Byte(b) => byte_hint(p, b, x, front),
    }
}

// The first byte of a line has 1.
fn say_column(p: Paper, from: usize, at: usize) -> Paper
    requires { from ≤ at }
{
    if at - from < 65536 {
        return p.say_number((at - from + 1) as u64);
    }
    p
}

fn say_stop(p: Paper, s: &[u8], line: usize, from: usize) -> Paper {
    let x = stop_in(s, line, from);
    let t = found_at(s, x.at);
    let p = say_column(
        p.say(b"Line ").say_number(line as u64).say(b", column "),
        from,
        x.at,
    );
    let p = say_expected(p.say(b": "), x.expected);
    let p = say_there(p.say(b" is expected, and there is "), t);
    say_hint(p.say(b"."), t, x, x.at == from).say(b"\n")
}

pub fn say_where(p: Paper, s: &[u8]) -> Paper {
    if s.len() > 65536 {
        return p.say(b"The text has more than 65,536 bytes.\n");
    }
    match first_wrong(s) {
        Some(Wrong { line, from }) => say_stop(p, s, line, from),
        None => p,
    }
}
