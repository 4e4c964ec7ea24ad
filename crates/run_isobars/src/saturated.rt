// 004's Table 34, saturation, up to the critical point, against the auxiliary equations (3.13) to (3.15). The table is
// the equal-area solution and they are not, so they are compared at the uncertainties that 004 gives them
// (docs/READING.md, Saturation).
use crate::isobar::judged;
use eos_densities::{liquid_density, vapour_density};
use eos_saturation::vapour_pressure;
use num_working::plain;
use run_print::decimal::Decimal;
use run_print::failure::Finding;
use run_print::table::Row;
use run_print::tally::{Count, Tally};

const T: usize = 0;

const P: usize = 1;

const PHASE: usize = 2;

const RHO: usize = 3;

// 0.012 % over the whole range.
const OF_PRESSURE: f64 = 0.00012;

// Of a density, to 295 K, to 303 K, and from there to the critical point 1 %.
fn uncertainty(t: f64, to_295: f64, to_303: f64) -> f64 {
    if t <= 295.0 {
        to_295
    } else if t <= 303.0 {
        to_303
    } else {
        0.01
    }
}

// Right within a part of the cell's value.
fn within(d: Decimal, scale: f64, x: f64, uncertainty: f64) -> Finding<'static> {
    let y = d.value(scale);
    let room = uncertainty * y;
    Finding {
        right: y - room <= x && x <= y + room,
        words: b", worked ",
        x: x / scale,
    }
}

// A cell that `scale` of make one of the working's unit, and the part of itself by which the worked may be off.
fn near(
    row: Row,
    tally: &mut Tally,
    column: usize,
    scale: f64,
    worked: Option<f64>,
    uncertainty: f64,
) {
    let found = row
        .printed(column)
        .map(|d| within(d, scale, plain(worked), uncertainty));
    judged(row, tally, column, Count::Cells, found, Count::Damaged);
}

// 0.025 % to 295 K and 0.08 % to 303 K.
fn vapour(row: Row, tally: &mut Tally, t: f64) {
    near(
        row,
        tally,
        RHO,
        1.0,
        vapour_density(t),
        uncertainty(t, 0.00025, 0.0008),
    );
}

// 0.015 % to 295 K and 0.04 % to 303 K.
fn liquid(row: Row, tally: &mut Tally, t: f64) {
    near(
        row,
        tally,
        RHO,
        1.0,
        liquid_density(t),
        uncertainty(t, 0.00015, 0.0004),
    );
}

// The vapour pressure stands in the rows of both phases, and is compared in the liquid's. The critical point is one
// row, whose density is that of both.
fn compared(row: Row, tally: &mut Tally, t: f64) {
    if !row.says(PHASE, b"vapour") {
        near(row, tally, P, 1000000.0, vapour_pressure(t), OF_PRESSURE);
        liquid(row, tally, t);
    }
    if !row.says(PHASE, b"liquid") {
        vapour(row, tally, t);
    }
}

pub fn compare(row: Row, tally: &mut Tally) {
    tally.counted(Count::Rows);
    if let Some(d) = row.printed(T) {
        tally.counted(Count::Compared);
        compared(row, tally, d.value(1.0));
    }
}
