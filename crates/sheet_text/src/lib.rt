// RULES 6.2: a field of a line, blank or a whole number. Each reader answers what stands at a place of the text and the
// place after it.
#![tactic(auto)]

ghost use Rattle.std.specs.Prelude.{◌≡◌, true, ◌-◌, ◌≤◌, drop};
ghost use Rattle.sheet_text.specs.Parse.{byte};
ghost use Rattle.sheet_text.specs.Field.{digit, field, field_to, field_after};
ghost use Rattle.sheet_text.specs.Place.{Reads, PlaceIs};

fn digit_of(b: u8) -> u64
    requires { digit b ≡ true }
    ensures { (result ≡ b - 48) × (result ≤ 9) }
{
    u64::from(b - b'0')
}

#[tactic(auto, using(crate::proofs::Fields::field_steps))]
fn read_field(s: &[u8], at: usize) -> Option<(Option<u64>, usize)>
    ensures { Reads s.now at (field (drop at s.now)) result }
{
    let b = *s.get(at)?;
    if b == b'-' {
        return Some((None, at + 1));
    }
    if !b.is_ascii_digit() {
        return None;
    }
    let mut v = digit_of(b);
    for i in at + 1..s.len() {
        let d = s[i];
        if !d.is_ascii_digit() {
            return Some((Some(v), i));
        }
        if v == 0 {
            return None;
        }
        let next = v * 10 + digit_of(d);
        if next >= 10_000_000_000 {
            return None;
        }
        v = next;
    }
    Some((Some(v), s.len()))
}

// Past the one byte b.
#[tactic(auto, using(crate::proofs::Parses::byte_steps))]
pub fn skip(s: &[u8], at: usize, b: u8) -> Option<usize>
    ensures { PlaceIs s.now at (byte b (drop at s.now)) result }
{
    if *s.get(at)? == b {
        return Some(at + 1);
    }
    None
}

// A field and the byte that ends it.
#[tactic(auto, using(crate::proofs::Fields::to_steps))]
pub fn read_field_to(s: &[u8], at: usize, end: u8) -> Option<(Option<u64>, usize)>
    ensures { Reads s.now at (field_to end (drop at s.now)) result }
{
    let (f, n) = read_field(s, at)?;
    let next = skip(s, n, end)?;
    Some((f, next))
}

// A letter, a space, and a field and the byte that ends it.
#[tactic(auto, unfolding(crate::specs::Field::field_after), using(crate::proofs::Places::reads_from))]
pub fn read_field_after(s: &[u8], at: usize, letter: u8, end: u8) -> Option<(Option<u64>, usize)>
    ensures { Reads s.now at (field_after letter end (drop at s.now)) result }
{
    let space = skip(s, at, letter)?;
    let next = skip(s, space, b' ')?;
    read_field_to(s, next, end)
}
