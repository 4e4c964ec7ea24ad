// How many terms fell away (docs/ARRANGEMENT.md, section 12): each exponential that says so, with the rows that it serves.
// What it says hangs on its argument alone, and is told before it is worked, so that nothing of it has to be kept.
ghost use Rattle.std.specs.Prelude.{◌≡◌};
ghost use Rattle.eos_terms.specs.Fallen.{rows_of, fallen_rows};

use num_exponential::decay::falls;

fn rows_of(x: f64, rows: u8) -> u8
    ensures { result ≡ rows_of x rows }
{
    if falls(x) { rows } else { 0 }
}

// Rows 8 to 34 by their c from 1 to 6; rows 35 to 39, of which 36 and 37 have one bell; rows 40 to 42, of which 40 and 41
// have one Ψ.
pub(crate) fn fallen_rows(x: [f64; 12]) -> u32
    ensures { result ≡ fallen_rows x }
{
    let served = [9, 7, 3, 6, 1, 1, 1, 2, 1, 1, 2, 1];
    let mut fallen = 0;
    for (v, rows) in x.iter().zip(&served) {
        fallen += u32::from(rows_of(*v, *rows));
    }
    fallen
}
