// What is counted of a table. No count goes back; one at its largest stays there.
ghost use Rattle.std.specs.Prelude.{◌≡◌};
ghost use Rattle.run_print.specs.Tally.{place, none, more, counted, found};

#[derive(Clone, Copy)]
pub enum Count {
    Rows,
    InRange,
    OnSaturationLine,
    OnMeltingLine,
    InCriticalBox,
    Compared,
    Cells,
    Damaged,
    WithoutDensity,
    Differences,
    DifferencesLeftOut,
    Failures,
}

// A number for each of these, in their order.
#[derive(Clone, Copy)]
pub struct Tally {
    pub counts: [u64; 12],
}

fn more(n: u64) -> u64
    ensures { result ≡ more n }
{
    n.saturating_add(1)
}

impl Tally {
    pub fn none() -> Tally
        ensures { result.counts ≡ none }
    {
        Tally { counts: [0; 12] }
    }

    pub fn counted(&mut self, which: Count)
        ensures { self.new.counts ≡ counted self.old.counts (place which) }
    {
        let at = which as usize;
        self.counts[at] = more(self.counts[at]);
    }

    // A comparison, and whether it was found right.
    pub fn found(&mut self, which: Count, right: bool)
        ensures { self.new.counts ≡ found self.old.counts (place which) right }
    {
        self.counted(which);
        if !right {
            self.counted(Count::Failures);
        }
    }
}
