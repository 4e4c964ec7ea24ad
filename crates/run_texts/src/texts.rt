// Texts that a program is run on: from a file, found in a list, or made of lines.
ghost use Rattle.std.specs.Prelude.{◌<◌, ◌≤◌, length};
ghost use Rattle.io.specs.Counts.{IsPrefixLen};

use desk_paper::files::open;
use desk_paper::paper::Paper;
use run_print::files::read_full;
use sheet_write::put;
use std::rt::Files;

// What a file has, as far as there is space. Where it can't be opened, that is said.
// It and `fill` answer a length and no slice: public, they keep their promise of one (`IsPrefixLen`).
pub fn load<R: Files>(files: &R, complaints: Paper, file: &[u8], space: &mut [u8]) -> usize
    ensures { IsPrefixLen result space.new }
{
    match open(files, file) {
        Ok(mut from) => read_full(&mut from, space),
        Err(e) => {
            complaints.say_failure(file, e);
            0
        }
    }
}

// The first place of `mark` from `from` on; the end where there is none.
pub fn find(text: &[u8], from: usize, mark: u8) -> usize
    requires { from ≤ length text.now }
    ensures { (from ≤ result) × (result ≤ length text.now) }
{
    match text[from..].iter().position(|b| *b == mark) {
        Some(i) => from + i,
        None => text.len(),
    }
}

// A title and a text in a list: where the title ends, and where the text starts and the next title.
// Places and no slices: `titled` is public, and its promise is of these places and their order.
#[derive(Clone, Copy)]
pub struct Places {
    pub end: usize,
    pub start: usize,
    pub next: usize,
}

// The title starts with `=` at a place of the list and ends with its line; the text goes up to the next `=`.
pub fn titled(list: &[u8], at: usize) -> Places
    requires { at < length list.now }
    ensures { (at < result.end) × (result.end ≤ result.start) × (result.start ≤ result.next) × (result.next ≤ length list.now) }
{
    let end = find(list, at + 1, b'\n');
    if end >= list.len() {
        return Places {
            end,
            start: end,
            next: end,
        };
    }
    let start = end + 1;
    Places {
        end,
        start,
        next: find(list, start, b'='),
    }
}

// Bytes at a place of the space, where they fit; answers where they end.
fn add(space: &mut [u8], at: usize, bytes: &[u8]) -> usize
    requires { at ≤ length space.old }
    ensures { result ≤ length space.new }
{
    if bytes.len() > space.len() - at {
        return at;
    }
    at + put(&mut space[at..], bytes)
}

// A first line, lines so many times, and other lines.
pub fn fill(space: &mut [u8], first: &[u8], lines: &[u8], times: usize, others: &[u8]) -> usize
    ensures { IsPrefixLen result space.new }
{
    let mut n = add(space, 0, first);
    for _ in 0..times {
        n = add(space, n, lines);
    }
    add(space, n, others)
}
