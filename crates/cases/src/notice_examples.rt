// The example lists of the change notice (its 10.2.3.2.2), each rounded down, and the same ports without PPS.
use crate::currents::{Currents, NO_PROGS};
use crate::expecting::{PASSES, Refusal, checks, is_built};
use crate::ports::{Port, Rounding};
use crate::running;
use crate::running::tell;
use std::io;

#[derive(Clone, Copy)]
struct Example {
    watts: u8,
    cable: u16,
    currents: Currents,
}

// Example 1.
const OF_27_W: Example = Example {
    watts: 27,
    cable: 300,
    currents: Currents {
        fixed: [300, 300, 0, 0],
        avs: [0, 0],
        progs: [300, 0, 0],
    },
};

// Example 2.
const OF_36_W: Example = Example {
    watts: 36,
    cable: 300,
    currents: Currents {
        fixed: [300, 300, 240, 0],
        avs: [240, 0],
        progs: [300, 240, 0],
    },
};

// Example 4. Without PPS it is the adapter of 10.2.2.1 too, with AVS.
const OF_50_W: Example = Example {
    watts: 50,
    cable: 300,
    currents: Currents {
        fixed: [300, 300, 300, 250],
        avs: [300, 250],
        progs: [0, 300, 250],
    },
};

// Example 5, which "prints a 15 V Prog that the rules above do not have for 80 W" (STATEMENT, "Worked by hand"). 20 V at 4 A needs
// the 5 A cable.
const OF_80_W: Example = Example {
    watts: 80,
    cable: 500,
    currents: Currents {
        fixed: [300, 300, 300, 400],
        avs: [300, 400],
        progs: [0, 0, 400],
    },
};

impl Example {
    fn port(self, wants_pps: bool) -> Port {
        Port::of_watts(
            self.watts,
            self.cable,
            self.watts,
            Rounding::Down,
            wants_pps,
        )
    }

    fn is_built(self) -> bool {
        is_built(self.port(true).into(), self.currents.into())
    }

    fn is_built_without_pps(self) -> bool {
        let wanted = Currents {
            progs: NO_PROGS,
            ..self.currents
        };
        is_built(self.port(false).into(), wanted.into())
    }

    // The list that the rule check is given has other Progs, and the port another cable.
    fn checks(self, cable: u16, progs: [u32; 3], wanted: Refusal) -> bool {
        let port = Example { cable, ..self }.port(true);
        let list = Currents {
            progs,
            ..self.currents
        };
        checks(port.into(), list.into(), wanted)
    }
}

// Example 3, 9 V Prog from 3 A to 4 A on a 5 A cable: a choice that the rule check leaves and the builder does not take. 9 V Prog is
// word 5. Columns: cable, 9 V Prog, twice; the refusal.
const OF_36_W_RAISED: [(&str, ([(u16, u32); 2], Refusal)); 2] = [
    (
        "36 W with 9 V Prog at 3.05 A, at 4 A, 5 A cable: passes",
        ([(500, 305), (500, 400)], PASSES),
    ),
    (
        "36 W with 9 V Prog at 4.05 A, or at 4 A on a 3 A cable: 19",
        ([(500, 405), (300, 400)], (19, 5)),
    ),
];

pub(crate) fn run(rt: &impl Print) -> io::Result<()> {
    tell(rt, "27 W with PPS", OF_27_W.is_built())?;
    tell(rt, "27 W without PPS", OF_27_W.is_built_without_pps())?;
    tell(rt, "36 W with PPS", OF_36_W.is_built())?;
    tell(rt, "36 W without PPS", OF_36_W.is_built_without_pps())?;
    running::run(rt, &OF_36_W_RAISED, |(raised, refusal)| {
        raised.iter().all(|&(cable, prog_9_v)| OF_36_W.checks(cable, [prog_9_v, 240, 0], refusal))
    })?;
    tell(rt, "50 W with PPS", OF_50_W.is_built())?;
    tell(rt, "50 W without PPS", OF_50_W.is_built_without_pps())?;
    tell(
        rt,
        "80 W with PPS: the notice's example less its 15 V Prog",
        OF_80_W.is_built(),
    )?;
    tell(
        rt,
        "80 W with PPS, the notice's example with its 15 V Prog: 18",
        OF_80_W.checks(500, [0, 300, 400], (18, 0)),
    )?;
    tell(rt, "80 W without PPS", OF_80_W.is_built_without_pps())
}
