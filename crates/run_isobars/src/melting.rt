// RULES 8.4: the rows that 004's Table 35 marks as melting, in our ranges and beyond them, against the melting pressure
// alone: it passes the printed pressure within half a unit of the printed temperature.
use crate::isobar::{FLAG, MEGA, P, T, judged};
use eos_melting::melting_pressure;
use num_working::plain;
use run_print::failure::Finding;
use run_print::table::Row;
use run_print::tally::{Count, Tally};

// None where the temperature or the pressure is damaged.
fn passed(row: Row) -> Option<Finding<'static>> {
    let kelvin = row.printed(T)?;
    let mega = row.printed(P)?;
    let t = kelvin.value(1.0);
    let half = kelvin.unit(1.0) / 2.0;
    let p = mega.value(MEGA);
    Some(Finding {
        right: plain(melting_pressure(t - half)) <= p && p <= plain(melting_pressure(t + half)),
        words: b", melting pressure there ",
        x: plain(melting_pressure(t)) / MEGA,
    })
}

pub fn compare(row: Row, tally: &mut Tally) {
    tally.counted(Count::Rows);
    if !row.says(FLAG, b"on melting line") {
        return;
    }
    tally.counted(Count::OnMeltingLine);
    judged(row, tally, T, Count::Cells, passed(row), Count::Damaged);
}
