// Files that a program is run on.
ghost use Rattle.io.specs.Counts.{IsPrefixLen};

use std::io::Read;

// What an open file has, as far as there is space, or up to where a read fails.
// It answers a length and no slice: public, it keeps its promise of one (`IsPrefixLen`).
pub fn read_full<R: Read>(from: &mut R, space: &mut [u8]) -> usize
    ensures { IsPrefixLen result space.new }
{
    let mut n = 0;
    // A turn passes the bytes of one read and not one byte, so that it goes over no range.
    while n < space.len() {
        match from.read(&mut space[n..]) {
            Ok(0) => return n,
            Ok(more) => n += more,
            Err(_) => return n,
        }
    }
    n
}
