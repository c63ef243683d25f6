// Ports from figures as they are written down.
use rules::Profile;
use steps::{HalfWatts, Ma10};

// By the number that a profile has for it.
#[derive(Clone, Copy)]
pub(crate) enum Rounding {
    Down = 0,
    Up = 1,
}

#[derive(Clone, Copy)]
pub(crate) struct Port {
    // In half watts.
    pub max: u16,
    pub present: u16,
    // In 10 mA.
    pub cable: u16,
    pub rounding: Rounding,
    pub wants_pps: bool,
}

impl Port {
    // The same in watts, in the order of the notice's table 10-4: port maximum and cable, then port present.
    pub(crate) fn of_watts(
        maximum: u8,
        cable: u16,
        present: u8,
        rounding: Rounding,
        wants_pps: bool,
    ) -> Port {
        Port {
            max: u16::from(maximum) * 2,
            present: u16::from(present) * 2,
            cable,
            rounding,
            wants_pps,
        }
    }
}

impl From<Port> for Profile {
    fn from(port: Port) -> Profile {
        Profile {
            max: HalfWatts(port.max),
            present: HalfWatts(port.present),
            cable: Ma10(port.cable),
            rounding: port.rounding as u8,
            pps: u8::from(port.wants_pps),
            flags: 0,
        }
    }
}
