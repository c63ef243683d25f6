// The two tables of the power rules (docs/STATEMENT.md, "Power rules"). The port maximum alone chooses their rows: a port with little
// power left keeps its voltages. The builder and the rule check walk the same rows, in this order.
use steps::{HalfWatts, Mv100};

// One row of the fixed part: a voltage in volts, and the port maximum that it must exceed. Volts are a count and no enum of four: currents
// are powers divided by them.
#[derive(Clone, Copy)]
pub struct Rail {
    pub volts: u16,
    pub above: HalfWatts,
}

// A programmable supply: the volts of its name, the top of its range, the port maximum that it must exceed, and the one that it must
// stay below.
#[derive(Clone, Copy)]
pub struct Supply {
    pub volts: u16,
    pub top: Mv100,
    pub above: HalfWatts,
    pub below: HalfWatts,
}

// The voltages of the fixed part, from the lowest up.
pub(crate) const RAILS: [Rail; 4] = [
    Rail {
        volts: 5,
        above: HalfWatts(0),
    },
    Rail {
        volts: 9,
        above: HalfWatts(30),
    },
    Rail {
        volts: 15,
        above: HalfWatts(54),
    },
    Rail {
        volts: 20,
        above: HalfWatts(90),
    },
];

// The row whose current is the first AVS current too.
pub(crate) const ROW_15_V: usize = 2;

// The row whose current is the second AVS current too.
pub(crate) const ROW_20_V: usize = 3;

// The row of the one AVS object, which every port with AVS has alike.
#[derive(Clone, Copy)]
pub(crate) struct AvsRow;

// The port maximum that a port with AVS exceeds.
pub(crate) const AVS_ABOVE: HalfWatts = HalfWatts(54);

// The port maximum that a port exceeds whose AVS goes past 15 V; for any other the second current is 0.
pub(crate) const AVS_PAST_15_V_ABOVE: HalfWatts = HalfWatts(90);

// The programmable supplies, from the lowest up. No port reaches 201 half watts, so the last row has no end.
pub(crate) const SUPPLIES: [Supply; 3] = [
    Supply {
        volts: 9,
        top: Mv100(110),
        above: HalfWatts(30),
        below: HalfWatts(90),
    },
    Supply {
        volts: 15,
        top: Mv100(160),
        above: HalfWatts(54),
        below: HalfWatts(120),
    },
    Supply {
        volts: 20,
        top: Mv100(210),
        above: HalfWatts(90),
        below: HalfWatts(201),
    },
];

// Every range of a programmable supply begins at 5 V.
pub(crate) const BOTTOM: Mv100 = Mv100(50);
