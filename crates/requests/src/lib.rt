// Requests (docs/STATEMENT.md, "Answering a request"): a request word taken apart by the kind of the object it names, and judged.

#![tactic(auto)]

mod answering;
mod judging;
mod taking;

pub use answering::answer;
pub use judging::judge;
use steps::{Ma10, Ma50, Mv20, Mv25, Mw250};
pub use taking::{position, take_apart};

// What a request asks of an object, by the object's kind and in its steps. A PPS voltage counts 20 mV and an AVS
// voltage 25 mV: the types keep them apart.
#[derive(Clone, Copy)]
pub enum Request {
    // Of a fixed object: two currents.
    Fixed {
        // The operating current, bits 19..10.
        operating: Ma10,
        // The maximum operating current, bits 9..0.
        maximum: Ma10,
    },
    // Of a battery object: two powers.
    Battery {
        // The operating power, bits 19..10.
        operating: Mw250,
        // The maximum operating power, bits 9..0.
        maximum: Mw250,
    },
    // Of a variable object: two currents.
    Variable {
        // The operating current, bits 19..10.
        operating: Ma10,
        // The maximum operating current, bits 9..0.
        maximum: Ma10,
    },
    // Of a programmable supply: a voltage and a current.
    Pps {
        // The output voltage, bits 20..9.
        volts: Mv20,
        // The operating current, bits 6..0.
        current: Ma50,
    },
    // Of an adjustable supply: a voltage and a current.
    Avs {
        // The output voltage, bits 20..9.
        volts: Mv25,
        // The operating current, bits 6..0.
        current: Ma50,
    },
}

// A request word taken apart.
#[derive(Clone, Copy)]
pub struct Asked {
    // The place of the object that it names, from 1, bits 31..28.
    pub position: u8,
    // Capability mismatch, bit 26: the sink needs more than is offered.
    pub mismatch: bool,
    // What it asks of that object.
    pub request: Request,
}
