// 004's tables of states against the library: the isobars (RULES 8.3), their rows on the melting line (RULES 8.4), and
// saturation. The tables, data/isobars.csv and data/saturation.csv, are as read from the scan (docs/READING.md). A line
// for each failure, the counts, and last how many failures there are.
#![tactic(auto)]

mod isobar;
mod melting;
mod saturated;

ghost use Rattle.std.specs.Prelude.{◌≡◌, length};

use desk_paper::paper::{Paper, Stream, paper_of};
use run_print::bits::say;
use run_print::counts::tell_counts;
use run_print::files::read_full;
use run_print::table::{Row, line_after};
use run_print::tally::{Count, Tally};
use std::fs;
use std::rt::Files;

// What comparing each row of a table counts. The first line names the columns.
fn lines<F: Fn(Row, &mut Tally)>(text: &[u8], compare: F) -> Tally
    requires { F.IsAlwaysCallable compare }
{
    let mut tally = Tally::none();
    let mut line = line_after(text, 0);
    // A turn passes a line and not a byte, so that it goes over no range.
    while line < text.len() {
        compare(Row { text, line }, &mut tally);
        line = line_after(text, line);
    }
    tally
}

// A table that is wrong in this many places: the comparison must be able to fail.
fn wrong<F: Fn(Row, &mut Tally)>(what: &[u8], text: &[u8], compare: F, failures: u64, places: &[u8])
    requires { F.IsAlwaysCallable compare }
{
    say(what);
    let tally = lines(text, compare);
    say(places);
    if tally.counts[Count::Failures as usize] == failures {
        say(b" found: yes\n");
    } else {
        say(b" found: no\n");
    }
}

// The row at 5 MPa and 300 K with its density, 128.40, moved by three units: it, and h − u = p/ρ.
fn wrong_row() {
    wrong(
        b"a wrong row:\n",
        b"isobar_MPa,T_K,rho,u,h,s,cv,cp,w\n5.00,300,128.43,-99.772,-60.830,-0.88811,0.85258,1.8025,223.25\n",
        isobar::compare,
        2,
        b"a wrong row is",
    );
}

// The same row with its density right and u, h, cv, cp and w moved by three units: u and h the same way, so that their
// difference is right. Each of the five must be found, and nothing else.
fn wrong_cells() {
    wrong(
        b"a row with five wrong cells:\n",
        b"isobar_MPa,T_K,rho,u,h,s,cv,cp,w\n5.00,300,128.40,-99.775,-60.833,-0.88811,0.85261,1.8028,223.28\n",
        isobar::compare,
        5,
        b"five wrong cells are",
    );
}

// The row on the melting line at 5 MPa, 217.546 K, moved by a unit of the temperature to either side.
fn wrong_melting() {
    wrong(
        b"a wrong row on the melting line, to either side:\n",
        b"isobar_MPa,T_K,rho,u,h,s,cv,cp,w,flag\n5.00,217.547,,,,,,,,on melting line\n5.00,217.545,,,,,,,,on melting line\n5.00,217.546,,,,,,,,on melting line\n",
        melting::compare,
        2,
        b"two wrong melting temperatures are",
    );
}

// Saturation at 300 K with the pressure, 6.7131, and the densities, 679.24 and 268.58, moved by twice 004's
// uncertainties or a little more.
fn wrong_saturation() {
    wrong(
        b"a wrong row of saturation, of each phase:\n",
        b"T_K,p_MPa,phase,rho\n300,6.7148,liquid,679.84\n300,6.7148,vapour,269.08\n",
        saturated::compare,
        3,
        b"a wrong pressure and two wrong densities are",
    );
}

// 131,072 bytes hold either table.
fn space() -> [u8; 131072]
    ensures { 131072 ≡ length result }
{
    [0; 131072]
}

// A table's file and the words that go with it.
fn compare<R: Files, F: Fn(Row, &mut Tally)>(
    files: &R,
    complaints: Paper,
    file: &str,
    with: F,
    table: &[u8],
    words: &[u8],
)
    requires { F.IsAlwaysCallable with }
{
    let mut space = space();
    match fs::open(files, file) {
        Ok(mut from) => {
            let n = read_full(&mut from, &mut space);
            tell_counts(table, lines(&space[..n], with), words);
        }
        Err(e) => {
            complaints.say_failure(file.as_bytes(), e);
        }
    }
}

fn compare_isobars<R: Files>(files: &R, complaints: Paper) {
    compare(
        files,
        complaints,
        "isobars.csv",
        isobar::compare,
        b"isobars",
        b" rows\n in range\n of them on the saturation line\n on the melting line\n in the critical box\n compared\n cells compared\n cells left out, damaged in the scan\n\n compared in h - u = p/rho\n left out of it, a cell damaged in the scan\n failures\n",
    );
}

fn compare_meltings<R: Files>(files: &R, complaints: Paper) {
    compare(
        files,
        complaints,
        "isobars.csv",
        melting::compare,
        b"melting",
        b" rows of the isobars\n\n\n of them on the melting line\n\n\n compared with the melting pressure\n cells left out, damaged in the scan\n\n\n\n failures\n",
    );
}

fn compare_saturations<R: Files>(files: &R, complaints: Paper) {
    compare(
        files,
        complaints,
        "saturation.csv",
        saturated::compare,
        b"saturation",
        b" rows\n\n\n\n\n compared\n comparisons, the critical density's with both equations\n cells left out, damaged in the scan\n\n\n\n failures\n",
    );
}

fn main(rt: HostRuntime) {
    let complaints = paper_of(Stream::Complaints(rt.stderr()));
    wrong_row();
    wrong_cells();
    wrong_melting();
    wrong_saturation();
    compare_isobars(&rt, complaints);
    compare_meltings(&rt, complaints);
    compare_saturations(&rt, complaints);
}
