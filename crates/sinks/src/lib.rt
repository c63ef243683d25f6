// Sink lists (docs/STATEMENT.md, "Sink lists"): what a sink needs, as words and as objects, its shape, and the rating that it is designed
// for. What both sides have in common is in `objects` and `lists`, with the side as a parameter.

#![tactic(auto)]

mod rating;
mod sink_lists;
mod sink_words;

pub use rating::sink_check;
pub use sink_lists::{sink_read, sink_shape, sink_write};
pub use sink_words::{sink_decode, sink_encode};
use steps::{Ma10, Ma50, Mv50, Mv100, Mw250};
use verdicts::Verdict;

// One of four kinds, with the fields of its own kind. `Fixed` stays the first: an empty place is a fixed object with all fields zero.
#[derive(Clone, Copy)]
pub enum SinkObject {
    // One voltage, and the current that is needed there.
    Fixed {
        // Bits 29..23. Only the first word of a list may have any: dual-role power (29), higher capability (28), unconstrained power (27),
        // USB communications (26), dual-role data (25), the current for a fast role swap (24..23).
        flags: u8,
        // The voltage, bits 19..10.
        volts: Mv50,
        // The operating current, bits 9..0.
        current: Ma10,
    },
    // A range of voltages, and the power that is needed there.
    Battery {
        // The maximum voltage, bits 29..20.
        max: Mv50,
        // The minimum voltage, bits 19..10.
        min: Mv50,
        // The operating power, bits 9..0.
        power: Mw250,
    },
    // A range of voltages, and the current that is needed there.
    Variable {
        // The maximum voltage, bits 29..20.
        max: Mv50,
        // The minimum voltage, bits 19..10.
        min: Mv50,
        // The operating current, bits 9..0.
        current: Ma10,
    },
    // A programmable supply that the sink would ask for a voltage of this range.
    Pps {
        // The maximum voltage, bits 24..17.
        max: Mv100,
        // The minimum voltage, bits 15..8.
        min: Mv100,
        // The operating current, bits 6..0.
        current: Ma50,
    },
}

// One place of a list: an object.
#[derive(Clone, Copy)]
pub struct SinkPlace {
    // The object.
    pub object: SinkObject,
}

// Seven places and how many of them count. What lies past the count is returned as zero and not read on the way in. No Vec: there is no heap.
// No struct that it shares with `lists::Objects`: over an array of a type parameter each call would owe a bound of its size, and what reads and
// writes the list would still be told what to make of a word.
#[derive(Clone, Copy)]
pub struct SinkObjects {
    // The objects, in order.
    pub places: [SinkPlace; 7],
    // How many of them count: 1 to 7 in a list that passes, 0 on a refusal.
    pub count: u8,
}

// What reading gives: on a refusal the list is empty and all zero. No Result: `SinkReadRefusals` says what stands beside a refusal.
#[derive(Clone, Copy)]
pub struct SinkReading {
    // The first refusal that applies, or success.
    pub verdict: Verdict,
    // The objects.
    pub list: SinkObjects,
}

// A place past the count: a fixed object with all fields zero.
pub const EMPTY_SINK_PLACE: SinkPlace = SinkPlace {
    object: SinkObject::Fixed {
        flags: 0,
        volts: Mv50(0),
        current: Ma10(0),
    },
};
