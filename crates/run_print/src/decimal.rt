// A printed number: its digits as a whole number, and how many of them stand after the point. So its unit, one of
// the last printed digit, is known, and its value is one division.
use crate::place::place_of;
use num_powers::whole_power;

#[derive(Clone, Copy)]
pub struct Decimal {
    pub negative: bool,
    pub digits: u64,
    pub places: usize,
}

// The number with the digit that a byte stands for behind it; none where there is no digit, or too many before it.
fn with_digit(n: u64, b: u8) -> Option<u64> {
    if n > 100000000000 {
        return None;
    }
    match b {
        b'0'..=b'9' => Some(n * 10 + u64::from(b - b'0')),
        _ => None,
    }
}

fn digits_of(before: &[u8], after: &[u8]) -> Option<u64> {
    let mut n = 0;
    for b in before.iter().chain(after) {
        n = with_digit(n, *b)?;
    }
    Some(n)
}

// A printed number of the tables has at most seven digits; with more than twelve it is none.
pub fn read_decimal(cell: &[u8]) -> Option<Decimal> {
    let number = cell.strip_prefix(b"-").unwrap_or(cell);
    let point = place_of(number, 0, b'.');
    let before = &number[..point];
    let after = number.get(point + 1..).unwrap_or(b"");
    let digits = digits_of(before, after)?;
    match before.len() + after.len() {
        1..=12 => Some(Decimal {
            negative: number.len() < cell.len(),
            digits,
            places: after.len(),
        }),
        _ => None,
    }
}

impl Decimal {
    // The value in a unit that `scale` of make one of the printed: kJ/kg at 1000 are J/kg.
    pub fn value(self, scale: f64) -> f64 {
        let x = std::num::nearest_u64_to_f64(self.digits) * scale / whole_power(10.0, self.places);
        if self.negative { -x } else { x }
    }

    // One unit of the last printed digit.
    pub fn unit(self, scale: f64) -> f64 {
        scale / whole_power(10.0, self.places)
    }
}
