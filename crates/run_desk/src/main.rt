// What is said to a person (RULES 14): the help; sheets, good and damaged, each with its report, its explanation and its
// warnings by themselves; and the words of each refusal. What it prints is worked elsewhere too (crosscheck/desk.py).
#![tactic(auto)]

use desk_explain::{explain, warn};
use desk_paper::help::say_help;
use desk_paper::paper::{Paper, Stream, paper_of};
use desk_words::put_words;
use door_limits::document_01;
use run_print::bits::{numbered, say};
use run_texts::sheets::{each_by, reported};
use run_texts::texts::{fill, load};

fn shown(p: Paper, title: &[u8], text: &[u8]) {
    reported(title, text);
    let p = explain(p, document_01(), text);
    warn(p, document_01(), text, b"sheet.txt");
}

// RULES 6.1: a sheet has 65,536 bytes at most.
fn long(p: Paper, title: &[u8], first: &[u8], last: &[u8]) {
    let mut space = [0; 65537];
    let n = fill(&mut space, first, b"C 1 1 P 1 1\n", 5460, last);
    shown(p, title, &space[..n]);
}

// RULES 14.1
fn words_of(number: u32) {
    let mut space = [0; 512];
    let n = put_words(number, &mut space);
    numbered(b"words of ", u64::from(number));
    say(b" are ");
    if n == 0 {
        say(b"none");
    }
    say(&space[..n]);
    say(b"\n");
}

fn all_words() {
    for number in 0..32 {
        words_of(number);
    }
}

fn main(rt: HostRuntime) {
    let p = paper_of(Stream::Output(rt.stdout()));
    let complaints = paper_of(Stream::Complaints(rt.stderr()));
    let mut space = io::large_buffer();
    let n = load(&rt, complaints, b"sheets.txt", &mut space);
    say(b"= help\n");
    say_help(p);
    each_by(&space[..n], |title, text| shown(p, title, text));
    long(p, b"= 65,536 bytes", b"N 1\n", b"C 1 1 P 1 1\n");
    long(p, b"= 65,537 bytes", b"N 10\n", b"C 1 1 P 1 1\n");
    long(
        p,
        b"= 65,536 bytes, the last line damaged",
        b"N 1\n",
        b"C 1 1 P 1 x\n",
    );
    all_words();
}
