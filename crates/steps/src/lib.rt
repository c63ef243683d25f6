// Steps of measure (docs/STATEMENT.md, "Steps of measure"). Each step is a type of its own, so in a field or a signature a
// figure in one step never stands where another is expected. The number inside counts steps: `Mv50(100)` is 5 V. Taken out by
// `.0` it has no step; there the contracts, which speak of mV, mA and mW, say what it measures.

#![tactic(auto)]

mod currents;
mod rounding;
mod scaling;
mod voltages;

pub use rounding::{round_both, round_down, round_up};

// Voltage in steps of 20 mV: what a PPS request asks for.
#[repr(C)]
#[derive(Clone, Copy, PartialEq, Eq, PartialOrd, Ord)]
pub struct Mv20(pub u16);

// Voltage in steps of 25 mV: what an AVS request asks for.
#[repr(C)]
#[derive(Clone, Copy, PartialEq, Eq, PartialOrd, Ord)]
pub struct Mv25(pub u16);

// Voltage in steps of 50 mV: fixed, battery and variable objects.
#[repr(C)]
#[derive(Clone, Copy, PartialEq, Eq, PartialOrd, Ord)]
pub struct Mv50(pub u16);

// Voltage in steps of 100 mV: PPS objects.
#[repr(C)]
#[derive(Clone, Copy, PartialEq, Eq, PartialOrd, Ord)]
pub struct Mv100(pub u16);

// Current in steps of 10 mA: fixed, variable and AVS objects, and what a cable carries.
#[repr(C)]
#[derive(Clone, Copy, PartialEq, Eq, PartialOrd, Ord)]
pub struct Ma10(pub u16);

// Current in steps of 50 mA: PPS objects, PPS and AVS requests.
#[repr(C)]
#[derive(Clone, Copy, PartialEq, Eq, PartialOrd, Ord)]
pub struct Ma50(pub u16);

// Power in steps of 250 mW: battery objects.
#[repr(C)]
#[derive(Clone, Copy, PartialEq, Eq, PartialOrd, Ord)]
pub struct Mw250(pub u16);

// Power in half watts: what a port is rated for (PDP).
#[repr(C)]
#[derive(Clone, Copy, PartialEq, Eq, PartialOrd, Ord)]
pub struct HalfWatts(pub u16);

// Both roundings of one quotient.
#[derive(Clone, Copy)]
pub struct Roundings {
    // Rounded down.
    pub down: u32,
    // Rounded up.
    pub up: u32,
}
