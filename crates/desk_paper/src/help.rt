// How the program is asked, and how a sheet is written, with a whole one (RULES 6 and 13).
use crate::paper::Paper;

pub fn say_usage(p: Paper) -> Paper {
    p.say(
        b"usage: scorer [--explain] [FILE..], scorer --help, scorer --version; - is standard input, which is read where no file is named\n",
    )
}

pub fn say_help(p: Paper) -> Paper {
    p.say(
        b"scorer [FILE..]            scores the sheet in each file; - is standard input, which is read where no file is named\n\
            scorer --explain [FILE..]  the report, and under it what it says in kg, bar and Celsius, and what to do\n\
            scorer --help, -h          says this\n\
            scorer --version           says which version this is\n\n\
            A whole sheet, of a dryer that needs 120 kg and three cylinders of 67.5 litres:\n\n\
            \x20 N 120000000\n\
            \x20 C 1 3131500 P 10600000 67500\n\
            \x20 C 2 3151500 P 11200000 67500\n\
            \x20 C 3 3146500 D 667000 67500\n\n\
            Cylinder 1 is read at 40.0 Celsius and 106 bar, 2 at 42.0 and 112, and 3 by its density, 667 kg/m3 at 41.5. Every line\n\
            ends in LF, the last too; one space between parts; whole numbers; - for what was not read, never 0, and the letter stays: P -\n\n\
            \x20 N need                                     in mg: kg times 1,000,000\n\
            \x20 C number temperature P pressure volume     temperature in 0.1 mK: (Celsius + 273.15) times 10,000;\n\
            \x20 C number temperature D density volume      pressure in Pa: bar times 100,000, absolute (a gauge that shows 0 in\n\
            \x20                                            open air wants 1.013 bar added); density in g/m3: kg/m3 times 1,000\n\
            \x20 C number - W mass volume                   weighed mass of the agent alone, without the empty cylinder, in g:\n\
            \x20                                            kg times 1,000. It needs no temperature; one that is given is not used\n\n\
            A volume is in mL: litres times 1,000. A sheet has 1 to 32 cylinder lines, and no cylinder number twice.\n\n\
            The report: L i M mg for each cylinder line that is answered, L i R no for one that is refused; then\n\
            TOTAL mg COVERED, TOTAL mg SHORT, or SENT BACK no where there is no verdict. The exit status is always 0.\n",
    )
}
