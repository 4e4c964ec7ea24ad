// RULES 14.5: the byte of a line at which it stops being in the form, and what is expected there. Words hang on it, and
// no more: promised is that it does not lie before the line.
ghost use Rattle.std.specs.Prelude.{◌≡◌, ◌≤◌};
ghost use Rattle.desk_form.specs.Stop.{StepsOn, stop_of};

#[derive(Clone, Copy)]
pub enum Expected {
    Need,
    Cylinder,
    Letter,
    Space,
    LineEnd,
    Number,
    DigitOrSpace,
    DigitOrLineEnd,
}

// What stands before the place: a 0 in front of a number, its tenth digit, `-` in its place, or anything else.
#[derive(Clone, Copy)]
pub enum Behind {
    Zero,
    TenDigits,
    Blank,
    Other,
}

#[derive(Clone, Copy)]
pub struct Stop {
    pub at: usize,
    pub expected: Expected,
    pub behind: Behind,
}

// Stopped at a place; a step that goes on answers the next place.
fn stopped(at: usize, expected: Expected, behind: Behind) -> Result<usize, Stop>
    ensures { StepsOn at result }
{
    Err(Stop {
        at,
        expected,
        behind,
    })
}

// Of a step that stopped; the end of the line at the place where none did.
fn stop_of(step: Result<usize, Stop>) -> Stop
    ensures { result ≡ stop_of step }
{
    match step {
        Err(stop) => stop,
        Ok(at) => Stop {
            at,
            expected: Expected::LineEnd,
            behind: Behind::Other,
        },
    }
}

// The first place from one on that has no digit.
fn past_digits(s: &[u8], from: usize) -> usize
    ensures { from ≤ result }
{
    for i in from..s.len() {
        if !s[i].is_ascii_digit() {
            return i;
        }
    }
    from.max(s.len())
}

fn has(s: &[u8], at: usize, b: u8) -> bool {
    s.get(at) == Some(&b)
}

// A byte of a line's form, which has `L` for `P`, `D` or `W`. Bytes and no kinds: a form is written as the line is, `C # # L # #`.
fn fits(form: u8, b: u8) -> bool {
    if form == b'L' {
        matches!(b, b'P' | b'D' | b'W')
    } else {
        b == form
    }
}

fn wanted(form: u8) -> Expected {
    match form {
        b'N' => Expected::Need,
        b'C' => Expected::Cylinder,
        b'L' => Expected::Letter,
        b' ' => Expected::Space,
        _ => Expected::LineEnd,
    }
}

// Behind a digit that another may follow.
fn wanted_or_digit(form: u8) -> Expected {
    match form {
        b' ' => Expected::DigitOrSpace,
        _ => Expected::DigitOrLineEnd,
    }
}

fn over_byte(s: &[u8], at: usize, form: u8) -> Result<usize, Stop>
    ensures { StepsOn at result }
{
    match s.get(at) {
        Some(&b) if fits(form, b) => Ok(at + 1),
        _ => stopped(at, wanted(form), Behind::Other),
    }
}

// Digits from a place on, and the form's byte behind them. No digit may follow a 0 in front.
fn over_digits(s: &[u8], at: usize, end: u8) -> Result<usize, Stop>
    ensures { StepsOn at result }
{
    let past = past_digits(s, at);
    let many = past - at;
    if has(s, at, b'0') {
        if many > 1 {
            return stopped(at + 1, wanted(end), Behind::Zero);
        }
        return Ok(past);
    }
    if many > 10 {
        return stopped(at + 10, wanted(end), Behind::TenDigits);
    }
    if many == 10 || has(s, past, end) {
        return Ok(past);
    }
    stopped(past, wanted_or_digit(end), Behind::Other)
}

// `-`, and the form's byte behind it.
fn over_blank(s: &[u8], at: usize, end: u8) -> Result<usize, Stop>
    ensures { StepsOn at result }
{
    if has(s, at, end) {
        return Ok(at);
    }
    stopped(at, wanted(end), Behind::Blank)
}

fn over_number(s: &[u8], at: usize, end: u8) -> Result<usize, Stop>
    ensures { StepsOn at result }
{
    match s.get(at) {
        Some(b'-') => over_blank(s, at + 1, end),
        Some(b) if b.is_ascii_digit() => over_digits(s, at, end),
        _ => stopped(at, Expected::Number, Behind::Other),
    }
}

// A line's form has `#` for a number, and behind it the byte that ends the number.
fn over_form(form: &[u8], s: &[u8], from: usize) -> Result<usize, Stop>
    ensures { StepsOn from result }
{
    let mut at = from;
    for (k, &b) in form.iter().enumerate() {
        at = if b == b'#' {
            over_number(s, at, form.get(k + 1).copied().unwrap_or(0))?
        } else {
            over_byte(s, at, b)?
        };
    }
    Ok(at)
}

// In the line that begins at a place: the need's, which is line 1, or a cylinder's.
pub fn stop_in(s: &[u8], line: usize, from: usize) -> Stop
    ensures { from ≤ result.at }
{
    let form = if line == 1 {
        b"N #\n".as_slice()
    } else {
        b"C # # L # #\n".as_slice()
    };
    stop_of(over_form(form, s, from))
}
