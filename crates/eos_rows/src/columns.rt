// Rows 1 to 34 of Table 31 of 004, read as docs/READING.md says, by column: each column is the definition's
// (specs/Column.antt) by one computation over the whole of it. Behind an entry stands its row's number. A column is taken
// once for all its rows, outside of a loop, since it is laid on the stack where it is taken. Columns and no rows: tried, and
// slower as rows (docs/DECISIONS.md, "How a column is held").
ghost use Rattle.std.specs.Prelude.{◌≡◌};
ghost use Rattle.eos_rows.specs.Column.{coefficients, delta_powers, tau_quarters, decay_powers};

// n.
pub fn coefficients() -> [f64; 34]
    ensures { result ≡ coefficients }
{
    [
        0.38856823203161e0, // 1
        0.29385475942740e1, // 2
        -0.55867188534934e1, // 3
        -0.76753199592477e0, // 4
        0.31729005580416e0, // 5
        0.54803315897767e0, // 6
        0.12279411220335e0, // 7
        0.21658961543220e1, // 8
        0.15841735109724e1, // 9
        -0.23132705405503e0, // 10
        0.58116916431436e-1, // 11
        -0.55369137205382e0, // 12
        0.48946615909422e0, // 13
        -0.24275739843501e-1, // 14
        0.62494790501678e-1, // 15
        -0.12175860225246e0, // 16
        -0.37055685270086e0, // 17
        -0.16775879700426e-1, // 18
        -0.11960736637987e0, // 19
        -0.45619362508778e-1, // 20
        0.35612789270346e-1, // 21
        -0.74427727132052e-2, // 22
        -0.17395704902432e-2, // 23
        -0.21810121289527e-1, // 24
        0.24332166559236e-1, // 25
        -0.37440133423463e-1, // 26
        0.14338715756878e0, // 27
        -0.13491969083286e0, // 28
        -0.23151225053480e-1, // 29
        0.12363125492901e-1, // 30
        0.21058321972940e-2, // 31
        -0.33958519026368e-3, // 32
        0.55993651771592e-2, // 33
        -0.30335118055646e-3, // 34
    ]
}

// d, the power of δ.
#[tactic(auto, unfolding(crate::specs::Column::delta_powers, crate::specs::Row::polynomials, crate::specs::Row::exponentials))]
pub fn delta_powers() -> [u8; 34]
    ensures { result ≡ delta_powers }
{
    [
        1, // 1
        1, // 2
        1, // 3
        1, // 4
        2, // 5
        2, // 6
        3, // 7
        1, // 8
        2, // 9
        4, // 10
        5, // 11
        5, // 12
        5, // 13
        6, // 14
        6, // 15
        6, // 16
        1, // 17
        1, // 18
        4, // 19
        4, // 20
        4, // 21
        7, // 22
        8, // 23
        2, // 24
        3, // 25
        3, // 26
        5, // 27
        5, // 28
        6, // 29
        7, // 30
        8, // 31
        10, // 32
        4, // 33
        8, // 34
    ]
}

// t, the power of τ, in quarters.
#[tactic(auto, unfolding(crate::specs::Column::tau_quarters, crate::specs::Row::polynomials, crate::specs::Row::exponentials))]
pub fn tau_quarters() -> [u8; 34]
    ensures { result ≡ tau_quarters }
{
    [
        0, // 1
        3, // 2
        4, // 3
        8, // 4
        3, // 5
        8, // 6
        3, // 7
        6, // 8
        6, // 9
        10, // 10
        0, // 11
        6, // 12
        8, // 13
        0, // 14
        4, // 15
        8, // 16
        12, // 17
        24, // 18
        12, // 19
        24, // 20
        32, // 21
        24, // 22
        0, // 23
        28, // 24
        48, // 25
        64, // 26
        88, // 27
        96, // 28
        64, // 29
        96, // 30
        32, // 31
        8, // 32
        112, // 33
        56, // 34
    ]
}

// c, the power of δ in the exponential, of rows 8 to 34: the others have none.
#[tactic(auto, unfolding(crate::specs::Column::decay_powers, crate::specs::Row::exponentials))]
pub fn decay_powers() -> [u8; 27]
    ensures { result ≡ decay_powers }
{
    [
        1, // 8
        1, // 9
        1, // 10
        1, // 11
        1, // 12
        1, // 13
        1, // 14
        1, // 15
        1, // 16
        2, // 17
        2, // 18
        2, // 19
        2, // 20
        2, // 21
        2, // 22
        2, // 23
        3, // 24
        3, // 25
        3, // 26
        4, // 27
        4, // 28
        4, // 29
        4, // 30
        4, // 31
        4, // 32
        5, // 33
        6, // 34
    ]
}
