// RULES 14.1: the words of each refusal, what it says and then what to do, in one place; and the version.
#![tactic(auto)]

ghost use Rattle.std.specs.Prelude.{◌≡◌, ◌==◌};
ghost use Rattle.std.specs.List.{position};
ghost use Rattle.sheet_write.specs.Writing.{Fitted};
ghost use Rattle.desk_words.specs.Words.{version, words, behind_lines, up_to_line};

use sheet_write::put_whole;

// 1.7.0
pub fn version() -> u32
    ensures { result ≡ version }
{
    10700
}

// What a text has behind n line ends: line n begins it, the first being line 0; nothing where there are not so many.
fn behind_lines(s: &[u8], n: u32) -> &[u8]
    ensures { result.now ≡ behind_lines n s.now }
{
    let mut left = n;
    for (i, &b) in s.iter().enumerate() {
        if left == 0 {
            return &s[i..];
        }
        if b == b'\n' {
            left -= 1;
        }
    }
    b""
}

// The place of the first line end.
fn line_end(s: &[u8]) -> Option<usize>
    ensures { result ≡ position (λ b. b == 10) s.now }
{
    s.iter().position(|&b| b == b'\n')
}

// Line n of a text, where it fits; else 0, and nothing is written.
fn put_line(s: &[u8], n: u32, out: &mut [u8]) -> usize
    ensures { Fitted out.old out.new (up_to_line (behind_lines n s.now)) result }
{
    let rest = behind_lines(s, n);
    let len = line_end(rest).unwrap_or(rest.len());
    put_whole(out, &rest[..len])
}

// Line n has the words of refusal n; a number that is no refusal has none.
pub fn put_words(number: u32, out: &mut [u8]) -> usize
    ensures { Fitted out.old out.new (words number) result }
{
    put_line(
        b"\n\
            A field that the line needs is blank, and only a weighed line needs no temperature. Read it at the cylinder and fill it in.\n\
            The volume is not 1 to 1,000,000 mL. Look at the cylinder's stamp: litres times 1,000. What was not read is written -, not 0.\n\
            A number is infinite or no number, which no sheet can give. Mend the program that calls.\n\
            The temperature is not 216.592 to 523 K (-56.55 to 249.85 C), or asked for saturation not below 304.1282 K. Check the thermometer: (Celsius + 273.15) times 10,000. What was not read is written -, not 0.\n\
            The pressure, read or worked, is not 0.1 to 300 bar absolute, or the density not 0.1 to 1,300 kg/m3. Check the gauge, its unit and the thermometer. What was not read is written -, not 0.\n\
            Too near the critical point to tell the density. Weigh the cylinder and write W and the grams of agent in the place of its reading, or warm it evenly to 40 to 45 C and read again: there a bar is about one per cent of a full cylinder's density and up to seven of a half empty one's, at 32.1 C up to half. Mind the pressure: filled to 750 kg/m3 it stands at 175 bar at 50 C.\n\
            The working failed, and no reading is known that gives this. Report it with the sheet.\n\
            Liquid and vapour stand together, or the pressure is exactly the vapour pressure. Weigh the cylinder and write W and the grams of agent in the place of its reading, or warm it evenly to 40 to 45 C and read again: there a bar is about one per cent of a full cylinder's density and up to seven of a half empty one's, at 32.1 C up to half. Mind the pressure: filled to 750 kg/m3 it stands at 175 bar at 50 C.\n\
            No density in the range has this pressure, and no reading is known that gives this. Report it with the sheet.\n\
            The sheet has no cylinder lines. Add one for each cylinder of the bank.\n\
            The sheet has more than 32 cylinder lines. Make two sheets and add their totals: the verdict of one is not the bank's.\n\
            The need is blank or 0. Fill in what the dryer needs, in mg: kg times 1,000,000.\n\
            Some line was refused, so there is no verdict. See to that line and score again.\n\
            The text is not in the form. scorer --help shows a whole sheet, and --explain where this one stops being in it.\n\
            What was lent doesn't have the length that the answer needs. Lend eight figures for a state, three for saturation, 1,512 bytes for a report; for many states as many pressures and answers as temperatures, and ten figures for each.\n\
            \n\n\n\
            Solid: dry ice and no agent that flows. Check the thermometer and the gauge, or warm the cylinder above -50 C and read again.\n\
            \n\n\n\
            The weighed mass is not 1 to 9,999,999,999 g. Weigh the cylinder again and take off its empty weight: kg times 1,000; an empty cylinder has no line. What was not read is written -, not 0.\n\
            \n\n\n\n\n\n\
            The cylinder is already on the sheet. Take the line out if it was copied, or read its number at the cylinder again.\n",
        number,
        out,
    )
}
