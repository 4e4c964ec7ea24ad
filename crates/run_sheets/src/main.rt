// Sheets, each by a title and its report: the first example of RULES 7.4, the sheets of RULES 8.2, the refusals that
// a sheet or a line of one can give, and their order; damaged texts; outputs of several lengths. What it prints is worked
// elsewhere too (crosscheck/sheets.py).
#![tactic(auto)]

use desk_paper::paper::{Paper, Stream, paper_of};
use door_limits::document_01;
use refusal::Refusal;
use run_print::bits::{numbered, say};
use run_texts::sheets::{each, reported};
use run_texts::texts::{fill, load};
use sheet_score::score;
use std::rt::Files;

fn built(title: &[u8], first: &[u8], lines: &[u8], times: usize, others: &[u8]) {
    let mut space = [0; 65537];
    let n = fill(&mut space, first, lines, times, others);
    reported(title, &space[..n]);
}

// The example's report, of 29 bytes, into an output of dots: what was answered, and every byte of the output after.
fn lent(out: &mut [u8]) {
    let w = score(
        document_01(),
        b"N 45000000\nC 7 - P 5000000 40000\nC 8 2000000 P 5000000 40000\n",
        out,
    );
    numbered(b"= an output of dots: ", out.len() as u64);
    match w {
        Ok(n) => numbered(b", bytes written: ", n as u64),
        Err(Refusal(n)) => numbered(b", refused by ", u64::from(n)),
    }
    say(b"\n");
    say(out);
    say(b"\n");
}

// The bank's 32 lines are good: both kinds of reading, the three phases, the ends of the ranges, and beside the
// critical box.
fn banks<R: Files>(files: &R, complaints: Paper) {
    let mut space = io::buffer();
    let n = load(files, complaints, b"bank.txt", &mut space);
    let bank = &space[..n];
    built(
        b"= 32 good lines, the need their total",
        b"N 1354720333\n",
        bank,
        1,
        b"",
    );
    built(
        b"= 32 good lines, the need 1 mg more",
        b"N 1354720334\n",
        bank,
        1,
        b"",
    );
    built(
        b"= 33 good lines, a blank need: 11 before 12",
        b"N -\n",
        bank,
        1,
        b"C 33 3000000 P 5000000 1\n",
    );
    built(
        b"= 33 lines, the last not in the form: 14 before 11",
        b"N -\n",
        bank,
        1,
        b"C 33 3000000 P 5000000\n",
    );
}

// RULES 6.1: a sheet has 65,536 bytes at most.
fn long() {
    built(b"= 65,536 bytes", b"N 1\n", b"C 1 1 P 1 1\n", 5461, b"");
    built(b"= 65,537 bytes", b"N 10\n", b"C 1 1 P 1 1\n", 5461, b"");
}

fn main(rt: HostRuntime) {
    let complaints = paper_of(Stream::Complaints(rt.stderr()));
    let mut space = io::large_buffer();
    let n = load(&rt, complaints, b"sheets.txt", &mut space);
    each(&space[..n]);
    each(
        b"= CR LF in the first line\nN 1\r\nC 7 3000000 P 5000000 1\n\
        = CR LF in the last line\nN 1\nC 7 3000000 P 5000000 1\r\n\
        = a tab\nN 1\nC 7\t3000000 P 5000000 1\n\
        = a NUL byte\nN 1\nC 7 3000000 P 5000000 1\0\n\
        = a byte above 127\nN 1\nC 7 3000000 P 5000000 \xb1\n",
    );
    banks(&rt, complaints);
    long();
    lent(&mut [b'.'; 28]);
    lent(&mut [b'.'; 29]);
    lent(&mut [b'.'; 40]);
}
