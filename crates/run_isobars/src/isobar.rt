// RULES 8.3: 004's Table 35, its isobars, against the pressure door at the printed temperature and pressure
// (docs/READING.md, D).
use door_answers::refusal_number;
use door_limits::{document_01, is_outside};
use door_pressure::from_pressure;
use eos_state::State;
use refusal::Refusal;
use run_print::decimal::Decimal;
use run_print::failure::Finding;
use run_print::table::Row;
use run_print::tally::{Count, Tally};

// The columns, by their places in a row of the table. Pressures are printed in MPa, u and h in kJ/kg, the heat capacities in kJ/(kg K).
pub const P: usize = 0;

pub const T: usize = 1;

const RHO: usize = 2;

const U: usize = 3;

const H: usize = 4;

const CV: usize = 6;

const CP: usize = 7;

const W: usize = 8;

pub const FLAG: usize = 9;

const KILO: f64 = 1000.0;

pub const MEGA: f64 = 1000000.0;

// No number, which no comparison finds right, where the cell is damaged.
fn number(row: Row, column: usize, scale: f64) -> f64 {
    match row.printed(column) {
        Some(d) => d.value(scale),
        None => 0.0 / 0.0,
    }
}

// What a comparison found, counted and told; where a damaged cell left none, that is counted.
// A row and the tally stay apart here and below: `lines` lends the one tally to each row, and `Row::judged` takes it alone.
pub fn judged(
    row: Row,
    tally: &mut Tally,
    column: usize,
    which: Count,
    found: Option<Finding>,
    left_out: Count,
) {
    match found {
        Some(found) => row.judged(column, tally, which, found),
        None => tally.counted(left_out),
    }
}

// Right within one unit of the cell's last digit.
fn within(d: Decimal, scale: f64, x: f64) -> Finding<'static> {
    let one = d.unit(scale);
    let y = d.value(scale);
    Finding {
        right: x - one <= y && y <= x + one,
        words: b", worked ",
        x: x / scale,
    }
}

fn quantity(row: Row, tally: &mut Tally, column: usize, scale: f64, x: f64) {
    let found = row.printed(column).map(|d| within(d, scale, x));
    judged(row, tally, column, Count::Cells, found, Count::Damaged);
}

// h − u = p/ρ within the printed digits: a unit of h, one of u, and p/ρ² times one of ρ. None where a cell of the three is damaged.
fn balance(row: Row, p: f64) -> Option<Finding<'static>> {
    let rho = row.printed(RHO)?;
    let u = row.printed(U)?;
    let h = row.printed(H)?;
    let density = rho.value(1.0);
    let quotient = p / density;
    let left = h.value(KILO) - u.value(KILO) - quotient;
    let room = h.unit(KILO) + u.unit(KILO) + quotient / density * rho.unit(1.0);
    Some(Finding {
        right: -room <= left && left <= room,
        words: b", h - u - p/rho is ",
        x: left / KILO,
    })
}

fn difference(row: Row, tally: &mut Tally, p: f64) {
    let found = balance(row, p);
    judged(
        row,
        tally,
        RHO,
        Count::Differences,
        found,
        Count::DifferencesLeftOut,
    );
}

fn compared(row: Row, tally: &mut Tally, x: State) {
    quantity(row, tally, RHO, 1.0, x.rho);
    quantity(row, tally, U, KILO, x.u);
    quantity(row, tally, H, KILO, x.h);
    quantity(row, tally, CV, KILO, x.cv);
    quantity(row, tally, CP, KILO, x.cp);
    quantity(row, tally, W, 1.0, x.w);
}

// What the pressure door says of a row that is on neither line. A refusal but that of the critical box is a failure.
fn asked(row: Row, tally: &mut Tally, t: f64, p: f64) {
    match from_pressure(document_01(), t, p) {
        Ok(x) => {
            tally.counted(Count::Compared);
            compared(row, tally, x);
            difference(row, tally, p);
        }
        Err(Refusal(6)) => tally.counted(Count::InCriticalBox),
        Err(refusal) => {
            let found = Finding {
                right: false,
                words: b", refused by ",
                x: f64::from(refusal_number(Err(refusal))),
            };
            row.judged(RHO, tally, Count::Cells, found);
        }
    }
}

pub fn compare(row: Row, tally: &mut Tally) {
    tally.counted(Count::Rows);
    let t = number(row, T, 1.0);
    let p = number(row, P, MEGA);
    let l = document_01();
    if is_outside(l.asked.temperature, t) || is_outside(l.asked.pressure, p) {
        return;
    }
    tally.counted(Count::InRange);
    if row.says(FLAG, b"on saturation line") {
        tally.counted(Count::OnSaturationLine);
    } else if row.says(FLAG, b"on melting line") {
        tally.counted(Count::OnMeltingLine);
    } else {
        asked(row, tally, t, p);
    }
}
