// Places in a text. A note in quotes may hold marks of its own, and no line's end.
ghost use Rattle.std.specs.Prelude.{◌≤◌, length};

// The first place at or after `at` of a line's end, or of `mark` outside quotes; or the text's end.
pub fn place_of(text: &[u8], at: usize, mark: u8) -> usize
    requires { at ≤ length text.now }
    ensures { (at ≤ result) × (result ≤ length text.now) }
{
    let mut quoted = false;
    for i in at..text.len() {
        match text[i] {
            b'\n' => return i,
            b'"' => quoted = !quoted,
            b if b == mark && !quoted => return i,
            _ => {}
        }
    }
    text.len()
}
