// RULES 14.3: the explanation of a sheet, and its warnings by themselves. What a sheet comes to is worked again from its
// text, by the functions that the report is made with.
#![tactic(auto)]

ghost use Rattle.std.specs.Prelude.{◌≡◌, ◌≤◌, ◌<◌, length};
ghost use Rattle.desk_explain.specs.Explain.{mark_at, first_of, GoesOn};

use desk_lines::Told;
use desk_look::gauge::gauge_of;
use desk_look::held::{Margin, is_heavy, look_at, margin_of};
use desk_paper::paper::Paper;
use desk_units::{kilograms_down, kilograms_up};
use desk_where::say_where;
use door_limits::Limits;
use refusal::Refusal;
use sheet_line::cylinder::read_cylinder;
use sheet_line::line::read_line;
use sheet_mass::Milligrams;
use sheet_outcome::{Ending, Marks, Outcome};
use sheet_read::{Sheet, read_sheet};
use sheet_standing::first_with;
use sheet_text::read_field_after;
use sheet_weigh::weigh_sheet;

// What came of the line after i others.
fn mark_at(m: &Marks, i: usize) -> Result<Milligrams, Refusal>
    ensures { result ≡ mark_at m.now i }
{
    m.marks.get(i).copied().unwrap_or(Err(Refusal(0)))
}

// The first line that has the cylinder number; a blank has none, and `first_with` answers 0 where there is none.
fn first_of(sheet: Sheet, number: Option<u64>) -> Option<usize>
    ensures { result ≡ first_of sheet number }
{
    let place = first_with(sheet, number?);
    (place > 0).then_some(place)
}

// How many gauges can't tell, and how many lines hold more than a cylinder is filled with.
#[derive(Clone, Copy)]
struct Warned {
    gauges: usize,
    heavy: usize,
}

impl Warned {
    fn with(self, l: Told) -> Warned {
        Warned {
            gauges: self.gauges.saturating_add(usize::from(l.doubt.is_some())),
            heavy: self.heavy.saturating_add(usize::from(is_heavy(l.look))),
        }
    }
}

// How many, after these words; nothing where there are none.
fn say_count(p: Paper, words: &[u8], n: usize) -> Paper {
    if n == 0 {
        return p;
    }
    p.say(words).say_number(n as u64).say(b".")
}

fn say_margin(p: Paper, mg: u64, need: u64, warned: Warned) -> Paper {
    let p = p
        .say(b"Held ")
        .say_shown(kilograms_down(mg))
        .say(b" kg, needed ")
        .say_shown(kilograms_up(need))
        .say(b" kg: ");
    let p = match margin_of(mg, need) {
        Margin::Spare(n) => p.say_shown(kilograms_down(n)).say(b" kg to spare."),
        Margin::Missing(n) => p.say_shown(kilograms_up(n)).say(b" kg missing."),
    };
    let p = say_count(p, b" Gauges that can't tell: ", warned.gauges);
    say_count(p, b" Lines above 750 kg/m3: ", warned.heavy).say(b"\n")
}

// A text that is explained: the sheet that it holds, where it is in the form, and what came of it.
#[derive(Clone, Copy)]
struct Explained<'a> {
    limits: Limits,
    text: &'a [u8],
    sheet: Option<Sheet>,
    outcome: Outcome,
}

impl<'a> Explained<'a> {
    fn of(limits: Limits, text: &'a [u8]) -> Explained<'a> {
        let sheet = read_sheet(text);
        let outcome = weigh_sheet(limits, sheet);
        Explained {
            limits,
            text,
            sheet,
            outcome,
        }
    }

    // The line at a place of the text, the i-th of the sheet, and where the next begins.
    fn line_at(&self, at: usize, i: usize) -> Option<(Told, usize)>
        requires { 1 ≤ i }
        ensures { GoesOn self.now.text.now at result }
    {
        let sheet = self.sheet?;
        let (cylinder, _) = read_cylinder(self.text, at)?;
        let (line, next) = read_line(self.text, at)?;
        let told = Told {
            place: i,
            cylinder,
            look: look_at(self.limits, mark_at(&self.outcome.marks, i - 1), line),
            doubt: gauge_of(self.limits, line),
            first: first_of(sheet, cylinder.number),
        };
        Some((told, next))
    }

    // Whether the report has lines: not where the sheet was sent back by 14, 10, 11 or 12.
    fn has_lines(&self) -> bool {
        matches!(
            self.outcome.ending,
            Ending::Covered(_) | Ending::Short(_) | Ending::SentBack(Refusal(13))
        )
    }

    // What is made of one line of the report after the other.
    fn each<T: Copy, F: Fn(T, Told) -> T>(&self, start: T, with: F) -> T
        requires { F.IsAlwaysCallable with }
    {
        let mut made = start;
        if !self.has_lines() {
            return made;
        }
        let Some((_, from)) = read_field_after(self.text, 0, b'N', b'\n') else {
            return made;
        };
        let mut at = from;
        let mut i = 1;
        // A turn passes a line and not a byte, so that it goes over no range.
        while let Some((told, next)) = self.line_at(at, i) {
            made = with(made, told);
            at = next;
            i += 1;
        }
        made
    }

    fn warned(&self) -> Warned {
        let none = Warned {
            gauges: 0,
            heavy: 0,
        };
        self.each(none, |w, l| w.with(l))
    }

    fn need(&self) -> Option<u64> {
        self.sheet?.need
    }

    fn say_held(&self, p: Paper, mg: u64) -> Paper {
        match self.need() {
            Some(need) => say_margin(p, mg, need, self.warned()),
            None => p,
        }
    }

    fn say_sent_back(&self, p: Paper, n: Refusal) -> Paper {
        match n {
            Refusal(13) => p
                .say(b"Needed ")
                .say_figure(self.need().map(kilograms_up))
                .say(b" kg. Sent back by ")
                .say_refusal(n),
            Refusal(14) => say_where(p.say(b"Sent back by ").say_refusal(n), self.text),
            _ => p.say(b"Sent back by ").say_refusal(n),
        }
    }

    fn say_ending(&self, p: Paper) -> Paper {
        match self.outcome.ending {
            Ending::Covered(mg) | Ending::Short(mg) => self.say_held(p, mg.0),
            Ending::SentBack(n) => self.say_sent_back(p, n),
        }
    }
}

// Under a report.
pub fn explain(p: Paper, limits: Limits, s: &[u8]) -> Paper {
    let sheet = Explained::of(limits, s);
    let p = sheet.each(p, |p, l| l.say_warnings(l.say_line(p), b""));
    sheet.say_ending(p)
}

// Each after the name.
pub fn warn(p: Paper, limits: Limits, s: &[u8], name: &[u8]) -> Paper {
    Explained::of(limits, s).each(p, |p, l| l.say_warnings(p, name))
}
