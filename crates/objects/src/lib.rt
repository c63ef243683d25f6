// One word and one object (docs/STATEMENT.md, "Object words"): the kind, the bit places, and both ways between them.

#![tactic(auto)]

use steps::{Ma10, Ma50, Mv50, Mv100, Mw250};

mod decoding;
mod encoding;
mod reserved_bits;

pub use decoding::{decode, decode_for, is_kind};
pub use encoding::{avs_word, encode, fixed_word, pps_word};
pub use reserved_bits::reserved_bit_set;

// Who sends a list. A sink has fewer kinds and fewer fields; what it does have stands at the same bits.
#[derive(Clone, Copy)]
pub enum Side {
    // What is offered.
    Source,
    // What is needed.
    Sink,
}

// The bits 31..30 of a fixed object. The kind of a word is told by these two bits, and where both are set by bits 31..28. The seven numbers are
// no enum: `is_kind` answers for every number (`TellsKind`), and no word is of any other.
pub const BITS_FIXED: u32 = 0b00;

// The bits 31..30 of a battery object.
pub const BITS_BATTERY: u32 = 0b01;

// The bits 31..30 of a variable object.
pub const BITS_VARIABLE: u32 = 0b10;

// The bits 31..28 of a PPS object.
pub const BITS_PPS: u32 = 0b1100;

// The bits 31..28 of an SPR AVS object.
pub const BITS_AVS: u32 = 0b1110;

// The bits 31..28 of an EPR AVS object. No SPR list may hold one.
pub const BITS_EPR_AVS: u32 = 0b1101;

// The bits 31..28 that no kind has. No SPR list may hold such a word.
pub const BITS_UNASSIGNED: u32 = 0b1111;

// One of five kinds, with the fields of its own kind. `Fixed` stays the first: an empty place is a fixed object with
// all fields zero.
#[derive(Clone, Copy)]
pub enum Object {
    // One voltage, up to a current.
    Fixed {
        // Bits 29..23. Only the first word of a list may have any.
        flags: u8,
        // Peak current, bits 21..20.
        peak: u8,
        // The voltage, bits 19..10.
        volts: Mv50,
        // The current, bits 9..0.
        current: Ma10,
    },
    // A range of voltages, up to a power.
    Battery {
        // The maximum voltage, bits 29..20.
        max: Mv50,
        // The minimum voltage, bits 19..10.
        min: Mv50,
        // The power, bits 9..0.
        power: Mw250,
    },
    // A range of voltages, up to a current.
    Variable {
        // The maximum voltage, bits 29..20.
        max: Mv50,
        // The minimum voltage, bits 19..10.
        min: Mv50,
        // The current, bits 9..0.
        current: Ma10,
    },
    // A programmable supply: the sink asks for a voltage of a range.
    Pps {
        // Power limited, bit 27. A number: 2 is refused as too wide (`PpsWord7`), not cut.
        limited: u8,
        // The maximum voltage, bits 24..17.
        max: Mv100,
        // The minimum voltage, bits 15..8.
        min: Mv100,
        // The current, bits 6..0.
        current: Ma50,
    },
    // An adjustable supply from 9 V to 15 V or 20 V.
    Avs {
        // Peak current, bits 27..26.
        peak: u8,
        // The current for 9 to 15 V, bits 19..10.
        low: Ma10,
        // The current for 15 to 20 V, bits 9..0; 0 where the range ends at 15 V.
        high: Ma10,
    },
}
