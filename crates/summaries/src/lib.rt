// Summaries (docs/STATEMENT.md, "Summaries"): the limits of a list's objects in millivolts and milliamperes, and the answer to a
// decoded request from them alone.

#![tactic(auto)]

mod answering;
mod holding;
mod limits;
mod making;
mod taking;

pub use answering::answer_summary;
pub use holding::rows_of;
pub use making::summarize;
use steps::{Ma10, Ma50, Mv20, Mv25};
pub use taking::take_request;
use verdicts::Verdict;

// Where each limit stands in its row: the lowest voltage, in mV. These are indices and no enum, since a row is C's array; inside the crate a row is
// a `Limits`.
pub const LOWEST: usize = 0;

// The highest voltage, in mV.
pub const HIGHEST: usize = 1;

// The greatest current below 15.0 V, in mA.
pub const BELOW_15_V: usize = 2;

// The greatest current above 15.0 V, in mA.
pub const ABOVE_15_V: usize = 3;

// What is kept beside a list: its count, and four limits for each of its seven places. Rows past the count are zero. Arrays with a count: C has
// them so.
#[repr(C)]
#[derive(Clone, Copy)]
pub struct Summary {
    // How many rows count: 1 to 7 for a list that passes, 0 on a refusal.
    pub count: u8,
    // By place, and in a row by the four numbers above.
    pub rows: [[u16; 4]; 7],
}

// A summary with its verdict: on a refusal it is all zero. C hands this struct on, so it is no `Result`.
#[repr(C)]
#[derive(Clone, Copy)]
pub struct Summarized {
    // The first refusal that applies, or success.
    pub verdict: Verdict,
    // The summary.
    pub summary: Summary,
}

// What a request asks that a summary can answer. It is `requests::Request` without the battery: a battery row has no power.
#[derive(Clone, Copy)]
pub enum QuickRequest {
    // Of a fixed object: two currents.
    Fixed {
        // The operating current.
        operating: Ma10,
        // The maximum operating current.
        maximum: Ma10,
    },
    // Of a variable object: two currents.
    Variable {
        // The operating current.
        operating: Ma10,
        // The maximum operating current.
        maximum: Ma10,
    },
    // Of a programmable supply: a voltage and a current.
    Pps {
        // The output voltage.
        volts: Mv20,
        // The operating current.
        current: Ma50,
    },
    // Of an adjustable supply: a voltage and a current.
    Avs {
        // The output voltage.
        volts: Mv25,
        // The operating current.
        current: Ma50,
    },
}

// A request to a battery object: it has no `QuickRequest`.
#[derive(Clone, Copy)]
pub struct BatteryRequest;

// A decoded request: a request word taken apart for the kind of the object at its position.
#[derive(Clone, Copy)]
pub struct QuickAsked {
    // The place of the object that it names, from 1.
    pub position: u8,
    // Capability mismatch, bit 26: the sink needs more than is offered.
    pub mismatch: bool,
    // What it asks of that object.
    pub request: QuickRequest,
}

// What decoding gives where nothing is refused.
#[derive(Clone, Copy)]
pub enum TakenRequest {
    // A request to a battery object, which the list has to answer.
    Battery {
        // The place of the object that it names, from 1.
        position: u8,
        // Capability mismatch, bit 26.
        mismatch: bool,
    },
    // A request that a summary can answer.
    Quick(QuickAsked),
}
