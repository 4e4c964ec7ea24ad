// Sheets by a title and their report (RULES 7).
use crate::texts::{Places, titled};
use door_limits::document_01;
use run_print::bits::say;
use sheet_score::score;

// The output holds the longest report.
pub fn reported(title: &[u8], text: &[u8]) {
    let mut out = [0; 1512];
    say(title);
    say(b"\n");
    if let Ok(n) = score(document_01(), text, &mut out) {
        say(&out[..n]);
    }
}

// Each sheet of a list, with its report.
pub fn each(list: &[u8]) {
    each_by(list, reported);
}

// Shows each sheet of a list, by its title and its text.
pub fn each_by<F: Fn(&[u8], &[u8])>(list: &[u8], show: F)
    requires { F.IsAlwaysCallable show }
{
    let mut at = 0;
    // A turn passes a sheet and not a byte, so that it goes over no range.
    while at < list.len() {
        let Places { end, start, next } = titled(list, at);
        show(&list[at..end], &list[start..next]);
        at = next;
    }
}
