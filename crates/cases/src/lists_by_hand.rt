// STATEMENT, "Worked by hand": the lists. M and P are in half watts, currents in 10 mA.
use crate::currents::{Currents, NO_PROGS};
use crate::expecting::{is_built, is_default};
use crate::ports::{Port, Rounding};
use crate::running;
use lists::Words;
use std::io;

// Columns: M; 5 V, 9 V, 15 V, 20 V; AVS 9 to 15 V, AVS 15 to 20 V. The first two cases are not marked.
const BY_M: [(&str, (u16, [u32; 4], [u32; 2])); 7] = [
    ("M 90: no 20 V", (90, [300, 300, 300, 0], [300, 0])),
    ("M 91: 20 V at 227", (91, [300, 300, 300, 227], [300, 227])),
    ("M 30: one word, 300", (30, [300, 0, 0, 0], [0, 0])),
    ("M 31: 300 and 172", (31, [300, 172, 0, 0], [0, 0])),
    ("M 54: no 15 V", (54, [300, 300, 0, 0], [0, 0])),
    ("M 55: 15 V at 183", (55, [300, 300, 183, 0], [183, 0])),
    (
        "M 80: fixed 300, 300, 266; AVS 266 and 0",
        (80, [300, 300, 266, 0], [266, 0]),
    ),
];

// The words of the line in STATEMENT, "The listing program".
const LISTING: Words = Words {
    words: [
        0x0001912C, 0x0002D12C, 0x0004B0F0, 0xE003C000, 0xC8DC323C, 0xC9403230, 0,
    ],
    count: 6,
};

// 267 = 10Bh, 200 = 0C8h.
const ROUNDED_UP: Words = Words {
    words: [
        0x0001912C, 0x0002D12C, 0x0004B10B, 0x000640C8, 0xE0042CC8, 0, 0,
    ],
    count: 5,
};

pub(crate) const L: Currents = Currents {
    fixed: [300, 300, 300, 325],
    avs: [300, 325],
    progs: NO_PROGS,
};

// The record 48 00 48 00 1E 00 01 00.
const OF_36_W: Port = Port {
    max: 72,
    present: 72,
    cable: 300,
    rounding: Rounding::Down,
    wants_pps: true,
};

const OF_40_W: Port = Port {
    max: 160,
    present: 80,
    cable: 500,
    rounding: Rounding::Up,
    wants_pps: false,
};

const OF_65_W: Port = Port {
    max: 160,
    present: 130,
    cable: 500,
    rounding: Rounding::Down,
    wants_pps: false,
};

pub(crate) fn run(rt: &impl Print) -> io::Result<()> {
    running::run(rt, &BY_M, |(max, fixed, avs)| {
        let wanted = Currents {
            fixed,
            avs,
            progs: NO_PROGS,
        };
        is_default(max, wanted.into())
    })?;
    let by_profile = [
        ("the listing, 36 W", (OF_36_W, LISTING)),
        (
            "M 160, P 80, 5 A, up: fixed 300, 300, 267, 200; AVS word E0042CC8",
            (OF_40_W, ROUNDED_UP),
        ),
        (
            "L, M 160, P 130, 5 A, down: fixed 300, 300, 300, 325; AVS 300 and 325",
            (OF_65_W, L.into()),
        ),
    ];
    running::run(
        rt,
        &by_profile,
        |(port, wanted)| is_built(port.into(), wanted),
    )
}
