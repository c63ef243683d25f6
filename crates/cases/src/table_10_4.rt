// Table 10-4 of the change notice: "the rows of 40 W come out by rounding up and those of 20 W by rounding down"
// (STATEMENT, "Worked by hand").
// 40 W / 15 V = 2.667 A is written 2.67; 20 W / 9 V = 2.222 A is written 2.22, 20 W / 15 V = 1.333 A is written 1.33.
// 65 W / 20 V = 3.25 A is exact, and what exceeds 3 A at 5, 9 and 15 V is 3 A: either rounding gives that row.
use crate::currents::{Currents, NO_PROGS};
use crate::expecting::is_built;
use crate::ports::{Port, Rounding};
use crate::running;
use crate::running::tell;
use std::io;

// Columns: port maximum and cable, port present; 5 V, 9 V, 15 V, 20 V; AVS 9 to 15 V, AVS 15 to 20 V.
type Row = (u8, u16, u8, [u32; 4], [u32; 2]);

const AT_65_W: Row = (80, 500, 65, [300, 300, 300, 325], [300, 325]);

const AT_40_W: [(&str, Row); 4] = [
    (
        "table 10-4, 80 W / 5 A, 40 W, up",
        (80, 500, 40, [300, 300, 267, 200], [267, 200]),
    ),
    (
        "table 10-4, 80 W / 3 A, 40 W, up",
        (80, 300, 40, [300, 300, 267, 200], [267, 200]),
    ),
    (
        "table 10-4, 40 W / 5 A, 40 W, up",
        (40, 500, 40, [300, 300, 267, 0], [267, 0]),
    ),
    (
        "table 10-4, 40 W / 3 A, 40 W, up",
        (40, 300, 40, [300, 300, 267, 0], [267, 0]),
    ),
];

const AT_20_W: [(&str, Row); 4] = [
    (
        "table 10-4, 80 W / 5 A, 20 W, down",
        (80, 500, 20, [300, 222, 133, 100], [133, 100]),
    ),
    (
        "table 10-4, 80 W / 3 A, 20 W, down",
        (80, 300, 20, [300, 222, 133, 100], [133, 100]),
    ),
    (
        "table 10-4, 40 W / 5 A, 20 W, down",
        (40, 500, 20, [300, 222, 133, 0], [133, 0]),
    ),
    (
        "table 10-4, 40 W / 3 A, 20 W, down",
        (40, 300, 20, [300, 222, 133, 0], [133, 0]),
    ),
];

fn is_row((maximum, cable, present, fixed, avs): Row, rounding: Rounding) -> bool {
    let port = Port::of_watts(maximum, cable, present, rounding, false);
    let wanted = Currents {
        fixed,
        avs,
        progs: NO_PROGS,
    };
    is_built(port.into(), wanted.into())
}

pub(crate) fn run(rt: &impl Print) -> io::Result<()> {
    tell(
        rt,
        "table 10-4, 80 W / 5 A, 65 W, either rounding",
        is_row(AT_65_W, Rounding::Down) && is_row(AT_65_W, Rounding::Up),
    )?;
    running::run(rt, &AT_40_W, |row| is_row(row, Rounding::Up))?;
    running::run(rt, &AT_20_W, |row| is_row(row, Rounding::Down))
}
