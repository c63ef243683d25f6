// Ports that share one supply (docs/STATEMENT.md, "Ports that share"): how the rows stand, and what each call decides from that
// and from its port's own row, by value. The calls themselves, over the lent rows, are in `board`.

#![tactic(auto)]

ghost use Rattle.std.specs.Prelude.{◌≡◌};
ghost use Rattle.ports.specs.Standing.{standing};
ghost use Rattle.ports.specs.Lending.{power_told};
ghost use Rattle.ports.specs.Promises.{Empties};

mod deciding;
mod judging;
mod power;
mod seat;
mod soundness;

pub use deciding::{advertise, attach, detach, offer, remaining, request};
pub use judging::{all_or_none, begin, goes_on, place_of, take_row};
use steps::{HalfWatts, Ma10};
use verdicts::{PASSED, Verdict};

// One port. Fill in `max` and `pps` before set-up; the calls see to the rest.
#[repr(C)]
#[derive(Clone, Copy)]
pub struct Row {
    // The port maximum M, 15 to 200.
    pub max: HalfWatts,
    // PPS wanted: 0 or 1. A number: C sets it, and any other is refused (4, 37).
    pub pps: u8,
    // What the cable carries, 1 to 5 A: 100 to 500; 0 when the port is empty.
    pub cable: Ma10,
    // The power P that its latest list was made for; 0 when the port is empty.
    pub present: HalfWatts,
    // The power that is kept for it: 15 at least, and what its latest request needs.
    pub held: HalfWatts,
}

// No row at all: what a refusal names, and what there is past the last row.
pub const NO_ROW: Row = Row {
    max: HalfWatts(0),
    pps: 0,
    cable: Ma10(0),
    present: HalfWatts(0),
    held: HalfWatts(0),
};

// For `take_row`, at set-up: a pass over the rows asks of each that it can be set up (31, 4). These are two names of a bool and no enum,
// since the theorem `Never21` of `demands` speaks of a bool.
pub const FRESH: bool = true;

// For `take_row`, in every other call: a pass over the rows asks of each that it is as the calls leave it (37).
pub const SOUND: bool = false;

// How the rows stand, as far as they were looked at. What they hold stands beside a refusal too (`TakesRow`), so this is no `Result`.
#[derive(Clone, Copy)]
pub struct Standing {
    // The first refusal, or success.
    pub fault: Verdict,
    // How many rows there are.
    pub count: usize,
    // What those that were looked at hold together, in half watts.
    pub held: u32,
}

impl Standing {
    // Whether nothing is refused so far.
    pub(crate) fn stands(self) -> bool
        ensures { result ≡ standing self }
    {
        self.fault.number == verdicts::SUCCESS
    }
}

// What a call decides: the answer, and the row to write. `Attaches` and its kin say which place and row stand beside a refusal, which a
// `Result` could not say.
#[derive(Clone, Copy)]
pub struct Change {
    // The first refusal that applies, or success.
    pub answer: Verdict,
    // The place of the row to write, from 0. On a refusal it is past the last row, and none is written.
    pub at: usize,
    // The row to write; `NO_ROW` on a refusal.
    pub row: Row,
}

// Remaining power with its verdict: zero on a refusal. C gets this struct, so it is no `Result`.
#[repr(C)]
#[derive(Clone, Copy)]
pub struct RemainingPower {
    // The first refusal that applies, or success.
    pub verdict: Verdict,
    // What no port holds.
    pub power: HalfWatts,
}

// What is left, from a call that went on by `?`: none on a refusal.
impl From<Result<HalfWatts, Verdict>> for RemainingPower {
    ghost from_gives = { λ r p. p ≡ power_told r };

    fn from(left: Result<HalfWatts, Verdict>) -> RemainingPower {
        match left {
            Ok(power) => RemainingPower {
                verdict: PASSED,
                power,
            },
            Err(verdict) => RemainingPower {
                verdict,
                power: HalfWatts(0),
            },
        }
    }
}

// The row of an empty port: no cable, no present power, 15 half watts held. M and PPS wanted stay. Nothing is refused.
#[tactic(auto, unfolding(crate::specs::Rows::emptied))]
pub fn emptied(row: Row) -> Row
    ensures { Empties row result }
{
    Row {
        cable: Ma10(0),
        present: HalfWatts(0),
        held: HalfWatts(15),
        ..row
    }
}
