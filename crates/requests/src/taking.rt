// A request word taken apart. Every bit place of a request that counts stands here. No other is looked at: reserved bits are ignored.
ghost use Rattle.std.specs.Prelude.{◌≡◌};
ghost use Rattle.requests.specs.Taking.{mismatch_of, operating_in, maximum_in, volts_in, current_in, request_of};
ghost use Rattle.requests.specs.Promises.{NamesPlace, TakesApart};

use crate::{Asked, Request};
use objects::Object;
use steps::{Ma10, Ma50, Mv20, Mv25, Mw250};

// The place of the object that a request names, from 1. Nothing is refused: whether a list has such a place is `answer`'s to say.
pub fn position(word: u32) -> u8
    ensures { NamesPlace word result }
{
    ((word >> 28) & 0xF) as u8
}

pub(crate) fn mismatch(word: u32) -> bool
    ensures { result ≡ mismatch_of word }
{
    (word >> 26) & 0x1 != 0
}

// The two figures of fixed, battery and variable share their bit places. Each counts steps of the object: 10 mA, of a battery 250 mW.
pub(crate) fn operating(word: u32) -> u16
    ensures { result ≡ operating_in word }
{
    ((word >> 10) & 0x3FF) as u16
}

pub(crate) fn maximum(word: u32) -> u16
    ensures { result ≡ maximum_in word }
{
    (word & 0x3FF) as u16
}

// PPS and AVS share their bit places. A PPS voltage counts 20 mV, and an AVS voltage 25 mV.
pub(crate) fn volts(word: u32) -> u16
    ensures { result ≡ volts_in word }
{
    ((word >> 9) & 0xFFF) as u16
}

pub(crate) fn current(word: u32) -> Ma50
    ensures { result ≡ current_in word }
{
    Ma50((word & 0x7F) as u16)
}

fn requested(o: Object, word: u32) -> Request
    ensures { result ≡ request_of o word }
{
    match o {
        Object::Fixed { .. } => Request::Fixed {
            operating: Ma10(operating(word)),
            maximum: Ma10(maximum(word)),
        },
        Object::Battery { .. } => Request::Battery {
            operating: Mw250(operating(word)),
            maximum: Mw250(maximum(word)),
        },
        Object::Variable { .. } => Request::Variable {
            operating: Ma10(operating(word)),
            maximum: Ma10(maximum(word)),
        },
        Object::Pps { .. } => Request::Pps {
            volts: Mv20(volts(word)),
            current: current(word),
        },
        Object::Avs { .. } => Request::Avs {
            volts: Mv25(volts(word)),
            current: current(word),
        },
    }
}

// What a request word says to an object. Nothing is refused here: `answer` does that.
pub fn take_apart(o: Object, word: u32) -> Asked
    ensures { TakesApart o word result }
{
    Asked {
        position: position(word),
        mismatch: mismatch(word),
        request: requested(o, word),
    }
}
