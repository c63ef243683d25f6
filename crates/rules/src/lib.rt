// Power rules (docs/STATEMENT.md, "Power rules"): the profile of a port, the list that is built for it, and the check of a list
// against it.

#![tactic(auto)]

mod building;
mod checking;
mod currents;
mod placing;
mod port;
mod profiles;
mod rows;
mod tables;

pub use building::build;
pub use checking::check;
pub use placing::word_at;
pub use profiles::{bad_cable, default_profile};
use steps::{HalfWatts, Ma10};
use verdicts::Verdict;

// A port: what a list is built for and checked against. Rounding and PPS wanted are numbers and no enums: C sets them, and any other
// number is refused (4).
#[repr(C)]
#[derive(Clone, Copy)]
pub struct Profile {
    // The port maximum M, 1 to 200.
    pub max: HalfWatts,
    // The present power P, 1 to the port maximum.
    pub present: HalfWatts,
    // What the cable carries, 1 to 5 A: 100 to 500.
    pub cable: Ma10,
    // How currents are rounded: 0 down, 1 up.
    pub rounding: u8,
    // PPS wanted: 0 or 1.
    pub pps: u8,
    // 0 to 63: they go to bits 29..24 of the first word.
    pub flags: u8,
}

// A profile with its verdict: on a refusal the profile is all zero.
// No `Result`: C hands this struct on, and `Defaults` says what stands beside a refusal.
#[repr(C)]
#[derive(Clone, Copy)]
pub struct Profiled {
    // The refusal, or success.
    pub verdict: Verdict,
    // The profile.
    pub profile: Profile,
}
