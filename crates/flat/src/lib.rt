// Objects and decoded requests as C takes them. `objects::Object` is an enum with data, which no C struct is: here is one struct for all
// five kinds, and the lists of `lists` are read and written with it, those of a sink too. A decoded request is such a struct likewise.

#![tactic(auto)]

mod flattening;
mod reading;
mod requesting;
mod writing;

pub use flattening::{flatten, raise};
use objects::Object;
pub use reading::{flat_read, flat_read_for};
pub use requesting::{flat_answer_summary, flat_take_request};
use steps::{Ma10, Ma50, Mv20, Mv25, Mv50, Mv100, Mw250};
use verdicts::Verdict;
pub use writing::{flat_write, flat_write_for};

// The kind of a fixed object. The five kinds are in the order of `objects::Object`; fixed is 0, so that an empty place is all zero. They are
// numbers and no enum, since C's structs have them and may hold any number.
pub const KIND_FIXED: u8 = 0;

// The kind of a battery object.
pub const KIND_BATTERY: u8 = 1;

// The kind of a variable object.
pub const KIND_VARIABLE: u8 = 2;

// The kind of a PPS object.
pub const KIND_PPS: u8 = 3;

// The kind of an SPR AVS object.
pub const KIND_AVS: u8 = 4;

// One object of any kind: each field has one step of measure, whatever the kind. A field that a kind does not have is
// zero when it is given out, and not read when it is taken in.
#[repr(C)]
#[derive(Clone, Copy)]
pub struct FlatObject {
    // One of the five above; any other number is no object.
    pub kind: u8,
    // Fixed: bits 29..23 of the word. In a built list this is twice the profile's flags.
    pub flags: u8,
    // Fixed and AVS: peak current, 0 to 3.
    pub peak: u8,
    // PPS: power limited, 0 or 1.
    pub limited: u8,
    // Fixed: the voltage, in 50 mV.
    pub volts: Mv50,
    // Battery and variable: the maximum voltage, in 50 mV.
    pub max: Mv50,
    // Battery and variable: the minimum voltage, in 50 mV.
    pub min: Mv50,
    // Battery: the power, in 250 mW.
    pub power: Mw250,
    // Fixed and variable: the current, in 10 mA.
    pub current: Ma10,
    // PPS: the maximum voltage, in 100 mV.
    pub max100: Mv100,
    // PPS: the minimum voltage, in 100 mV.
    pub min100: Mv100,
    // PPS: the current, in 50 mA.
    pub current50: Ma50,
    // AVS: the current for 9 to 15 V, in 10 mA.
    pub low: Ma10,
    // AVS: the current for 15 to 20 V, in 10 mA; 0 where the range ends at 15 V.
    pub high: Ma10,
}

// Seven objects and how many of them count, in the layout that C has. What lies past the count is returned as zero and not read on the way in.
#[repr(C)]
#[derive(Clone, Copy)]
pub struct FlatObjects {
    // The objects, in order.
    pub places: [FlatObject; 7],
    // How many of them count: 1 to 7 in a list that passes, 0 on a refusal.
    pub count: u8,
}

// What reading gives: on a refusal the list is empty and all zero. C gets this struct, so it is no `Result`.
#[repr(C)]
#[derive(Clone, Copy)]
pub struct FlatReading {
    // The first refusal that applies, or success.
    pub verdict: Verdict,
    // The objects.
    pub list: FlatObjects,
}

// A decoded request of any kind: each field has one step of measure. A field that a kind does not have is zero when it is given out, and not
// read when it is taken in.
#[repr(C)]
#[derive(Clone, Copy)]
pub struct FlatRequest {
    // The kind of the object at its position, as above. A request to a battery object is for the list: a summary refuses it with 12.
    pub kind: u8,
    // The place of the object that it names, from 1.
    pub position: u8,
    // Capability mismatch, bit 26: 0 where it is clear, any other number where it is set.
    pub mismatch: u8,
    // Fixed and variable: the operating current, in 10 mA.
    pub operating: Ma10,
    // Fixed and variable: the maximum operating current, in 10 mA.
    pub maximum: Ma10,
    // PPS: the voltage, in 20 mV.
    pub volts20: Mv20,
    // AVS: the voltage, in 25 mV.
    pub volts25: Mv25,
    // PPS and AVS: the operating current, in 50 mA.
    pub current50: Ma50,
}

// What decoding gives: on a refusal the request is all zero, so that no position is named. C gets this struct, so it is no `Result`.
#[repr(C)]
#[derive(Clone, Copy)]
pub struct FlatTaken {
    // The first refusal that applies, or success.
    pub verdict: Verdict,
    // The decoded request.
    pub request: FlatRequest,
}

// No request, as it is on every refusal.
const NO_REQUEST: FlatRequest = FlatRequest {
    kind: KIND_FIXED,
    position: 0,
    mismatch: 0,
    operating: Ma10(0),
    maximum: Ma10(0),
    volts20: Mv20(0),
    volts25: Mv25(0),
    current50: Ma50(0),
};

// A place past the count: a fixed object with all fields zero.
const EMPTY_FLAT: FlatObject = FlatObject {
    kind: KIND_FIXED,
    flags: 0,
    peak: 0,
    limited: 0,
    volts: Mv50(0),
    max: Mv50(0),
    min: Mv50(0),
    power: Mw250(0),
    current: Ma10(0),
    max100: Mv100(0),
    min100: Mv100(0),
    current50: Ma50(0),
    low: Ma10(0),
    high: Ma10(0),
};
