// RULES 7.3: each function writes to the front of out and answers how many bytes it wrote; the bytes after them stay.
// The bytes of `put` and `put_number` fit: a caller knows their number first.
#![tactic(auto)]

ghost use Rattle.std.specs.Prelude.{◌≡◌, ◌+◌, ◌/◌, ◌%◌, ◌<◌, ◌≤◌, length, set};
ghost use Rattle.sheet_text.specs.Decimal.{decimal};
ghost use Rattle.sheet_write.specs.Writing.{Wrote, Fitted};

// The bytes of text.
#[tactic(auto, using(crate::proofs::Writings::bytes_after))]
pub fn put(out: &mut [u8], text: &[u8]) -> usize
    requires { length text.now ≤ length out.old }
    ensures { Wrote out.old out.new result text.now }
{
    // copy_from_slice: tried, and slower: a report of one-digit masses takes a quarter longer.
    for (i, &b) in text.iter().enumerate() {
        out[i] = b;
    }
    text.len()
}

// The same where they fit; else 0, and nothing is written.
pub fn put_whole(out: &mut [u8], text: &[u8]) -> usize
    ensures { Fitted out.old out.new text.now result }
{
    if text.len() > out.len() {
        return 0;
    }
    put(out, text)
}

// How many digits n has: 20 at most.
pub fn number_len(n: u64) -> usize
    ensures { (result ≡ length (decimal n)) × (result ≤ 20) }
{
    if n < 10 {
        return 1; // of 0 too
    }
    if n < 100 {
        return 2;
    }
    number_len(n / 100) + 2
}

// The two digits of 0, of 1, and so on to 99: those of r stand at 2 r. Read where it lies.
static PAIRS: [u8; 200] = *b"\
    00010203040506070809\
    10111213141516171819\
    20212223242526272829\
    30313233343536373839\
    40414243444546474849\
    50515253545556575859\
    60616263646566676869\
    70717273747576777879\
    80818283848586878889\
    90919293949596979899";

// The two digits of r, a number below 100, at a place of out.
fn put_pair(out: &mut [u8], at: usize, r: u64)
    requires { (r < 100) × (at + 1 < length out.old) }
    ensures { out.new ≡ set (set out.old (at + 1) (48 + r % 10)) at (48 + r / 10) }
{
    let i = (2 * r) as usize;
    let tens = PAIRS[i];
    let ones = PAIRS[i + 1];
    out[at + 1] = ones;
    out[at] = tens;
}

// The digits of n, from the back, two a division; where their number is odd, the first stands alone.
// The number left ends the loop and no place does: chunks of two from the back would ask in each turn whether one is short.
#[tactic(auto, using(crate::proofs::Backward::sizes))]
pub fn put_number(out: &mut [u8], n: u64) -> usize
    requires { length (decimal n) ≤ length out.old }
    ensures { Wrote out.old out.new result (decimal n) }
{
    // The loop writes a digit alone too: tried without this, and slower: a number of one to eight digits takes a tenth longer.
    if n < 10 {
        out[0] = b'0' + n as u8;
        return 1;
    }
    let len = number_len(n);
    let mut at = len;
    let mut left = n;
    while left >= 100 {
        at -= 2;
        put_pair(out, at, left % 100);
        left /= 100;
    }
    if left < 10 {
        out[0] = b'0' + left as u8;
    } else {
        put_pair(out, 0, left);
    }
    len
}
