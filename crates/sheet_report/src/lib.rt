// RULES 7: the report. Its length is worked first, so that with refusal 15 every byte of the output stays as it was.
// Each `put_` writes to the front of out and answers how many bytes it wrote.
#![tactic(auto)]

ghost use Rattle.std.specs.Prelude.{◌≡◌, ◌++◌, ◌+◌, ◌≤◌, length};
ghost use Rattle.sheet_text.specs.Decimal.{decimal};
ghost use Rattle.sheet_write.specs.Writing.{Wrote};
ghost use Rattle.sheet_report.specs.Report.{weighed_bytes, line_bytes, lines_bytes, ending_bytes, report_bytes, ReportIs};

use door_checks::number_of;
use refusal::Refusal;
use sheet_mass::Milligrams;
use sheet_outcome::{Ending, Outcome};
use sheet_write::{number_len, put, put_number};

// RULES 3.1: the report is longer than the output lent for it.
const TOO_LONG: Refusal = Refusal(15);

fn put_between(out: &mut [u8], front: &[u8], n: u64, back: &[u8]) -> usize
    requires { length front.now + (length (decimal n) + length back.now) ≤ length out.old }
    ensures { Wrote out.old out.new result (front.now ++ decimal n ++ back.now) }
{
    let a = put(out, front);
    let b = a + put_number(&mut out[a..], n);
    b + put(&mut out[b..], back)
}

#[tactic(auto, using(crate::proofs::Reports::sizes), unfolding(crate::specs::Report::weighed_bytes))]
fn put_weighed(out: &mut [u8], w: Result<Milligrams, Refusal>) -> usize
    requires { length (weighed_bytes w) ≤ length out.old }
    ensures { Wrote out.old out.new result (weighed_bytes w) }
{
    match w {
        Ok(mg) => put_between(out, b"M ", mg.0, b"\n"),
        Err(refusal) => put_between(out, b"R ", u64::from(number_of(Err(refusal))), b"\n"),
    }
}

#[tactic(auto, using(crate::proofs::Reports::sizes), unfolding(crate::specs::Report::line_bytes))]
fn put_line(out: &mut [u8], i: u64, w: Result<Milligrams, Refusal>) -> usize
    requires { length (line_bytes i w) ≤ length out.old }
    ensures { Wrote out.old out.new result (line_bytes i w) }
{
    let a = put_between(out, b"L ", i, b" ");
    a + put_weighed(&mut out[a..], w)
}

// Each line is handed what the one before it left of out.
fn put_lines(out: &mut [u8], marks: &[Result<Milligrams, Refusal>]) -> usize
    requires { length (lines_bytes 1 marks.now) ≤ length out.old }
    ensures { Wrote out.old out.new result (lines_bytes 1 marks.now) }
{
    let mut at = 0;
    for (i, mark) in marks.iter().enumerate() {
        at += put_line(&mut out[at..], i as u64 + 1, *mark);
    }
    at
}

#[tactic(auto, using(crate::proofs::Reports::sizes), unfolding(crate::specs::Report::ending_bytes))]
fn put_ending(out: &mut [u8], e: Ending) -> usize
    requires { length (ending_bytes e) ≤ length out.old }
    ensures { Wrote out.old out.new result (ending_bytes e) }
{
    match e {
        Ending::Covered(mg) => put_between(out, b"TOTAL ", mg.0, b" COVERED\n"),
        Ending::Short(mg) => put_between(out, b"TOTAL ", mg.0, b" SHORT\n"),
        Ending::SentBack(refusal) => put_between(out, b"SENT BACK ", u64::from(refusal.0), b"\n"),
    }
}

#[tactic(auto, using(crate::proofs::Reports::sizes))]
fn line_len(i: u64, w: Result<Milligrams, Refusal>) -> usize
    ensures { (result ≡ length (line_bytes i w)) × (result ≤ 46) }
{
    let number = match w {
        Ok(mg) => mg.0,
        Err(refusal) => u64::from(number_of(Err(refusal))),
    };
    number_len(i) + number_len(number) + 6
}

#[tactic(auto, using(crate::proofs::Reports::sizes))]
fn lines_len(marks: &[Result<Milligrams, Refusal>]) -> usize
    requires { length marks.now ≤ 32 }
    ensures { (result ≡ length (lines_bytes 1 marks.now)) × (result ≤ 1472) }
{
    let mut sum = 0;
    for (i, mark) in marks.iter().enumerate() {
        sum += line_len(i as u64 + 1, *mark);
    }
    sum
}

#[tactic(auto, using(crate::proofs::Reports::sizes), unfolding(crate::specs::Report::ending_bytes))]
fn ending_len(e: Ending) -> usize
    ensures { (result ≡ length (ending_bytes e)) × (result ≤ 40) }
{
    match e {
        Ending::Covered(mg) => number_len(mg.0) + 15,
        Ending::Short(mg) => number_len(mg.0) + 13,
        Ending::SentBack(refusal) => number_len(u64::from(refusal.0)) + 11,
    }
}

pub fn write_report(out: &mut [u8], o: Outcome) -> Result<usize, Refusal>
    ensures { ReportIs out.old out.new (report_bytes o) result }
{
    let n = o.marks.count.min(32);
    let marks = &o.marks.marks[..n];
    let room = out.len();
    if lines_len(marks) + ending_len(o.ending) > room {
        return Err(TOO_LONG);
    }
    let a = put_lines(out, marks);
    Ok(a + put_ending(&mut out[a..], o.ending))
}
