// RULES 3.2, 3.4, 6.5, 6.6 and 6.7: what comes of a line, refused by 1, 30, 2, 23, its door or 7, in this order, or its
// milligrams; and of a sheet, sent back by 14, 10, 11, 12 or 13, in this order, or the total.
#![tactic(auto)]

ghost use Rattle.std.specs.Prelude.{◌≡◌, [], ◌≤◌, take};
ghost use Rattle.sheet_outcome.specs.Outcome.{marks_of, total};
ghost use Rattle.sheet_weigh.specs.Weighing.{is_volume, in_volume, milligrams, by_reading, weighed, weighed_after};
ghost use Rattle.sheet_weigh.specs.Sheet.{marks_for, finished, marked, outcome, Light};

use door_density::from_density;
use door_limits::Limits;
use door_pressure::from_pressure;
use num_whole::whole_below;
use refusal::Refusal;
use sheet_line::line::{Line, Reading};
use sheet_mass::{Milligrams, from_scale};
use sheet_outcome::{Ending, Marks, Outcome, admit, conclude};
use sheet_read::Sheet;
use sheet_standing::standing_of;

// RULES 2.4, in mL.
pub fn is_volume(v: u64) -> bool
    ensures { result ≡ is_volume v }
{
    v >= 1 && v <= 1_000_000
}

fn in_volume(v: u64) -> Result<(), Refusal>
    ensures { result ≡ in_volume v }
{
    if is_volume(v) {
        return Ok(());
    }
    Err(Refusal(2))
}

#[tactic(auto, unfolding(crate::specs::Weighing::milligrams, num_working::specs::Number::whole), using(crate::proofs::Weighings::in_float_lem))]
fn milligrams(rho: f64, v: u64) -> Result<Milligrams, Refusal>
    requires { v ≤ 1_000_000 }
    ensures { result ≡ milligrams rho v }
{
    let mg = whole_below(rho * (v as f64)).ok_or(Refusal(7))?;
    Ok(Milligrams(mg))
}

// A reading that asks a door takes the temperature with it; a mass that was weighed asks none.
#[tactic(auto, unfolding(crate::specs::Weighing::by_reading, crate::specs::Weighing::filled), using(crate::proofs::Weighings::volume_most))]
fn by_reading(
    limits: Limits,
    k: Option<f64>,
    v: u64,
    r: Reading<f64>,
) -> Result<Milligrams, Refusal>
    ensures { result ≡ by_reading limits k v r }
{
    match r {
        Reading::Blank => Err(Refusal(1)),
        // This arm and the next are alike but for the door: with the door handed in, each would name it all the same.
        Reading::Pressure(p) => {
            let t = k.ok_or(Refusal(1))?;
            in_volume(v)?;
            let state = from_pressure(limits, t, p)?;
            milligrams(state.rho, v)
        }
        Reading::Density(d) => {
            let t = k.ok_or(Refusal(1))?;
            in_volume(v)?;
            let state = from_density(limits, t, d)?;
            milligrams(state.rho, v)
        }
        Reading::Weighed(g) => {
            in_volume(v)?;
            from_scale(g).ok_or(Refusal(23))
        }
    }
}

#[tactic(auto, unfolding(crate::specs::Weighing::weighed))]
pub fn weigh(limits: Limits, l: Line<f64>) -> Result<Milligrams, Refusal>
    ensures { result ≡ weighed limits l }
{
    l.number.ok_or(Refusal(1))?;
    let v = l.volume.ok_or(Refusal(1))?;
    by_reading(limits, l.temperature, v, l.reading)
}

// After lines with these cylinder numbers: 1, then 30, and else what the line alone comes to.
#[tactic(auto, unfolding(crate::specs::Weighing::weighed_after))]
fn weigh_after(limits: Limits, numbers: &[u64], l: Line<f64>) -> Result<Milligrams, Refusal>
    ensures { result ≡ weighed_after limits numbers.now l }
{
    standing_of(numbers, l)?;
    weigh(limits, l)
}

// Each line's milligrams or refusal; known counts the cylinder numbers that were read. The index is a place in two arrays.
#[tactic(auto, using(crate::proofs::Knowns::known_most, crate::proofs::Knowns::known_room))]
fn weigh_all(limits: Limits, s: Sheet) -> Marks
    requires { s.count ≤ 32 }
    ensures { result ≡ marks_for (marked limits (take s.count s.lines)) }
{
    // Behind the lines stands what no line has (`marks_for`); `known` of the numbers are read: fixed memory.
    let mut marks = [Err(Refusal(0)); 32];
    let mut numbers: [u64; 32] = [0; 32];
    let mut known: usize = 0;
    for i in 0..s.count {
        let l = s.lines[i];
        marks[i] = weigh_after(limits, &numbers[..known], l);
        if let Some(number) = l.number {
            numbers[known] = number;
            known += 1;
        }
    }
    Marks {
        marks,
        count: s.count,
    }
}

#[tactic(auto, using(sheet_outcome::proofs::Totals::turns))]
fn total(m: Marks) -> Option<Milligrams>
    requires count_bound { m.count ≤ 32 }
    requires light { Light (marks_of m) }
    ensures { result ≡ total (marks_of m) }
{
    let mut sum: u64 = 0;
    for mark in &m.marks[..m.count] {
        let mg = mark.ok()?;
        sum += mg.0;
    }
    Some(Milligrams(sum))
}

// A sheet that is sent back before its lines are worked.
#[tactic(auto, unfolding(crate::specs::Sheet::marks_for, sheet_read::specs::Padded::padded))]
fn send_back(why: Refusal) -> Outcome
    ensures { result ≡ finished (Err why) [] }
{
    Outcome {
        marks: Marks {
            marks: [Err(Refusal(0)); 32],
            count: 0,
        },
        ending: Ending::SentBack(why),
    }
}

// A sheet that is worked.
fn work(limits: Limits, s: Sheet, need: u64) -> Outcome
    requires { s.count ≤ 32 }
    ensures { result ≡ finished (Ok need) (marked limits (take s.count s.lines)) }
{
    let marks = weigh_all(limits, s);
    Outcome {
        marks,
        ending: conclude(need, total(marks)),
    }
}

// 14 of a text that is not in the form, which has no sheet.
#[tactic(auto, unfolding(crate::specs::Sheet::outcome), using(sheet_outcome::proofs::Admissions::few))]
pub fn weigh_sheet(limits: Limits, r: Option<Sheet>) -> Outcome
    ensures { result ≡ outcome limits r }
{
    let Some(s) = r else {
        return send_back(Refusal(14));
    };
    match admit(true, s.count, s.need) {
        Err(why) => send_back(why),
        Ok(need) => work(limits, s, need),
    }
}
