// What is written to, and whether all that was said so far could be written: after a failure nothing more is.
ghost use Rattle.std.specs.Prelude.{◌≤◌};

use desk_units::{Shown, kilograms_down, put_shown};
use desk_words::put_words;
use door_checks::number_of;
use refusal::Refusal;
use std::io::{Cursor, Error, Print, Stderr, Stdout, Write};

// What a paper lies on: a stream of the program's own, or an open file by its number.
#[derive(Clone, Copy)]
pub enum Stream {
    Output(Stdout),
    Complaints(Stderr),
    Number(i32),
}

// The failure is of the first write that failed.
#[derive(Clone, Copy)]
pub struct Paper {
    pub on: Stream,
    pub failure: Option<Error>,
}

pub fn paper_of(on: Stream) -> Paper {
    Paper { on, failure: None }
}

pub fn paper_on(fd: i32) -> Paper {
    paper_of(Stream::Number(fd))
}

// Linux's number of an input or output error.
const IO: i32 = 5;

// Why a write by a number failed is not told.
fn write_by(fd: i32, text: &[u8]) -> Result<(), Error> {
    if io::write_all(fd, text) {
        Ok(())
    } else {
        Err(Error::from_raw_os_error(IO))
    }
}

fn write_on(on: Stream, text: &[u8]) -> Result<(), Error> {
    match on {
        Stream::Output(out) => Print::write_all(&out, text),
        Stream::Complaints(out) => Print::write_all(&out, text),
        Stream::Number(fd) => write_by(fd, text),
    }
}

// Behind the words of an error stands its number, which a person has no use for.
fn end_of_words(text: &[u8; 256]) -> usize
    ensures { result ≤ 256 }
{
    for i in 0..256 {
        if text[i] == 0 || text[i..].starts_with(b" (os error ") {
            return i;
        }
    }
    256
}

impl Paper {
    pub fn say(self, text: &[u8]) -> Paper {
        if self.failure.is_some() {
            return self;
        }
        Paper {
            failure: write_on(self.on, text).err(),
            ..self
        }
    }

    pub fn say_number(self, n: u64) -> Paper {
        let mut digits = [0; 20];
        let k = io::decimal(n, &mut digits);
        self.say(&digits[..k])
    }

    // No number that is shown has more bytes.
    pub fn say_shown(self, s: Shown) -> Paper {
        let mut space = [0; 277];
        let n = put_shown(&mut space, s);
        self.say(&space[..n])
    }

    // `-` where there is none.
    pub fn say_figure(self, f: Option<Shown>) -> Paper {
        match f {
            Some(s) => self.say_shown(s),
            None => self.say(b"-"),
        }
    }

    // In kg, rounded down.
    pub fn say_mass(self, mg: Option<u64>) -> Paper {
        self.say_figure(mg.map(kilograms_down))
    }

    // RULES 14.1: the number of a refusal and its words.
    pub fn say_refused(self, n: Refusal) -> Paper {
        let number = number_of(Err(n));
        let mut space = [0; 512];
        let long = put_words(u32::from(number), &mut space);
        self.say_number(u64::from(number))
            .say(b". ")
            .say(&space[..long])
    }

    // With the line's end.
    pub fn say_refusal(self, n: Refusal) -> Paper {
        self.say_refused(n).say(b"\n")
    }

    // A line of what failed and why, in the words of the system.
    pub fn say_failure(self, what: &[u8], e: Error) -> Paper {
        let mut space = Cursor::new([0; 256]);
        let _ = write!(space, "{e}");
        let text = space.into_inner();
        self.say(what)
            .say(b": ")
            .say(&text[..end_of_words(&text)])
            .say(b"\n")
    }
}
