// RULES 13: `scorer FILE..`, the report of each sheet on standard output, exactly its bytes, and what has to be said of it
// on standard error; `--explain` says it under the report. A program has no exit status to choose.
#![tactic(auto)]

ghost use Rattle.scorer.specs.Scorer.{ReadInto, Reports, Scores};

use desk_arguments::{Asked, Named, Wish, Word, nothing_asked, take_word, word_of};
use desk_explain::{explain, warn};
use desk_paper::files::open;
use desk_paper::help::{say_help, say_usage};
use desk_paper::paper::{Paper, Stream, paper_of};
use desk_words::version;
use door_limits::document_01;
use sheet_score::score;
use std::env::FillError;
use std::io::{Error, IsTerminal};
use std::rt::{Env, Stderr, Stdout};

// Reads to the end of the input, or until the space is full; answers how many bytes were read. run_print's `read_full`
// ends at a read that fails, and can't fail itself: here the failure has to be said (RULES 13).
fn read_text<R: std::io::Read>(from: &mut R, space: &mut [u8]) -> Result<usize, Error>
    ensures { ReadInto space.new result }
{
    let mut n = 0;
    // A turn passes the bytes of one read and not one byte, so that it goes over no range.
    while n < space.len() {
        match from.read(&mut space[n..])? {
            0 => break,
            more => n += more,
        }
    }
    Ok(n)
}

// The output holds the longest report: 32 lines of at most 46 bytes, and an ending of at most 40.
fn report_of(text: &[u8], out: &mut [u8; 1512]) -> usize
    ensures { Reports text.now out.old out.new result }
{
    let Ok(long) = score(document_01(), text, out) else {
        return 0;
    };
    long
}

// The report of what was read: how many bytes were read, and how many their report has.
fn score_from<R: std::io::Read>(
    from: &mut R,
    space: &mut [u8],
    out: &mut [u8; 1512],
) -> Result<(usize, usize), Error>
    ensures { Scores space.new out.old out.new result }
{
    let n = read_text(from, space)?;
    Ok((n, report_of(&space[..n], out)))
}

fn output(to: Stdout) -> Paper {
    paper_of(Stream::Output(to))
}

fn complaints(to: Stderr) -> Paper {
    paper_of(Stream::Complaints(to))
}

// Whether all was written; what wasn't is said.
fn is_written(p: Paper, to: Stderr) -> bool {
    if let Some(e) = p.failure {
        complaints(to).say_failure(b"standard output", e);
    }
    p.failure.is_none()
}

// What has to be said of a sheet on standard error, where it isn't explained.
fn warn_of(p: Paper, name: &[u8], text: &[u8]) {
    if text.len() > 65536 {
        p.say(name);
        p.say(b": The text has more than 65,536 bytes.\n");
    }
    warn(p, document_01(), text, name);
}

// The numbers of Linux for why a file can't be opened.
const INVALID: i32 = 22;

const NAME_TOO_LONG: i32 = 36;

fn error_of(e: FillError) -> Error {
    match e {
        FillError::NotPresent => Error::from_raw_os_error(INVALID),
        FillError::TooLong => Error::from_raw_os_error(NAME_TOO_LONG),
    }
}

// The word at a place, where there is one.
fn word_at<E: Env>(env: &E, place: usize, ended: bool) -> Option<Word> {
    let mut space = io::buffer();
    match env.arg(place, &mut space) {
        Ok(n) => Some(word_of(ended, &space[..n])),
        Err(FillError::TooLong) => Some(word_of(ended, b"")),
        Err(FillError::NotPresent) => None,
    }
}

// By all words after the program's own name.
fn asked_for<E: Env>(env: &E) -> Asked {
    let mut a = nothing_asked();
    for i in 1..usize::MAX {
        match word_at(env, i, a.ended) {
            Some(w) => a = take_word(a, i, w),
            None => return a,
        }
    }
    a
}

// What the program runs on, and what its words ask for.
#[derive(Clone, Copy)]
struct Run {
    rt: HostRuntime,
    asked: Asked,
}

impl Run {
    // The name of a sheet, where there are several.
    fn say_name(self, p: Paper, name: &[u8]) -> Paper {
        if matches!(self.asked.named, Named::Several) {
            return p.say(b"== ").say(name).say(b"\n");
        }
        p
    }

    // Why a file can't be read; the other files are still answered.
    fn refuse(self, name: &[u8], e: Error) -> bool {
        complaints(self.rt.stderr()).say_failure(name, e);
        true
    }

    // A text and its report; whether to go on.
    fn tell(self, name: &[u8], text: &[u8], out: &[u8]) -> bool {
        let report = self.say_name(output(self.rt.stdout()), name).say(out);
        if self.asked.explained {
            return is_written(explain(report, document_01(), text), self.rt.stderr());
        }
        if !is_written(report, self.rt.stderr()) {
            return false;
        }
        warn_of(complaints(self.rt.stderr()), name, text);
        true
    }

    // The sheet in an open file; whether to go on.
    // RULES 6.1: a sheet has 65,536 bytes at most, so that one byte more is enough to know.
    fn answer<R: std::io::Read>(self, from: &mut R, name: &[u8]) -> bool {
        let mut space = [0; 65537];
        let mut out = [0; 1512];
        match score_from(from, &mut space, &mut out) {
            Ok((n, long)) => self.tell(name, &space[..n], &out[..long]),
            Err(e) => self.refuse(name, e),
        }
    }

    // The file of this name.
    fn answer_file(self, name: &[u8]) -> bool {
        match open(&self.rt, name) {
            Ok(mut from) => self.answer(&mut from, name),
            Err(e) => self.refuse(name, e),
        }
    }

    // The file that the word at a place names.
    fn answer_place(self, place: usize) -> bool {
        let mut name = io::buffer();
        match self.rt.arg(place, &mut name) {
            Ok(n) => self.answer_file(&name[..n]),
            Err(e) => self.refuse(b"FILE", error_of(e)),
        }
    }

    fn answer_input(self) -> bool {
        self.answer(&mut self.rt.stdin(), b"standard input")
    }

    // A word, where it names a sheet; whether to go on.
    fn answer_word(self, place: usize, w: Word) -> bool {
        match w {
            Word::Input => self.answer_input(),
            Word::File => self.answer_place(place),
            _ => true,
        }
    }

    fn answer_each(self) {
        let mut ended = false;
        for i in 1..usize::MAX {
            let Some(w) = word_at(&self.rt, i, ended) else {
                return;
            };
            if !self.answer_word(i, w) {
                return;
            }
            ended = ended || matches!(w, Word::End);
        }
    }

    // Nobody is to wait for a program that waits for him.
    fn answer_nothing_named(self) {
        if self.rt.stdin().is_terminal() {
            complaints(self.rt.stderr()).say(
                b"scorer: reading a sheet from standard input; scorer --help shows how one is written\n",
            );
        }
        self.answer_input();
    }

    fn answer_named(self) {
        if matches!(self.asked.named, Named::Nothing) {
            self.answer_nothing_named();
        } else {
            self.answer_each();
        }
    }
}

fn say_version(p: Paper, v: u64) -> Paper {
    p.say(b"makhroeng ")
        .say_number(v / 10000)
        .say(b".")
        .say_number(v / 100 % 100)
        .say(b".")
        .say_number(v % 100)
        .say(b"\n")
}

fn no_flag<E: Env>(env: &E, p: Paper, place: usize) {
    let mut word = io::buffer();
    let n = env.arg(place, &mut word).unwrap_or(0);
    p.say(&word[..n]);
    p.say(b": no such flag\n");
    say_usage(p);
}

fn main(rt: HostRuntime) {
    let asked = asked_for(&rt);
    match asked.wish {
        Wish::Score => Run { rt, asked }.answer_named(),
        Wish::Help => {
            is_written(say_help(output(rt.stdout())), rt.stderr());
        }
        Wish::Version => {
            is_written(
                say_version(output(rt.stdout()), u64::from(version())),
                rt.stderr(),
            );
        }
        Wish::NoFlag(place) => no_flag(&rt, complaints(rt.stderr()), place),
    }
}
