// Lists in hand: seven places and a count (docs/STATEMENT.md, "Lists in hand"). Their shape is checked here, and they are read and
// written.

#![tactic(auto)]

ghost use Rattle.std.specs.Prelude.{◌≡◌};
ghost use Rattle.lists.specs.Writing.{listing_told};

mod object_rules;
mod read_list;
mod shape_check;
mod write_list;

use objects::Object;
pub use read_list::read;
pub use shape_check::{bad_count, readable, shape, shape_for};
use steps::{Ma10, Mv50};
use verdicts::{PASSED, Verdict};
pub use write_list::{finished, refuse, write};

// Seven words and how many of them count. What lies past the count is not read. An array with a count beside it: C hands it on so.
#[repr(C)]
#[derive(Clone, Copy)]
pub struct Words {
    // The words of Source_Capabilities or of a sink's list, in order.
    pub words: [u32; 7],
    // How many of them count: 1 to 7 in a list that passes, 0 on a refusal.
    pub count: u8,
}

// One place of a decoded list.
#[derive(Clone, Copy)]
pub struct Place {
    // The object that stands there.
    pub object: Object,
}

// Seven objects and how many of them count. What lies past the count is not read. An array with a count beside it: there is no heap.
#[derive(Clone, Copy)]
pub struct Objects {
    // The objects, in order.
    pub places: [Place; 7],
    // How many of them count: 1 to 7 in a list that passes, 0 on a refusal.
    pub count: u8,
}

// How a list stands before it is read: the first refusal, and how many words there are to read, none on a refusal. No `Result`: what is promised
// (`ShapesTo`, and `ReadableRefusals` of demands) names the count beside a refusal.
#[derive(Clone, Copy)]
pub struct Shaped {
    // The first refusal that applies, or success.
    pub verdict: Verdict,
    // The count of the list, 1 to 7; 0 on a refusal.
    pub count: u8,
}

// What reading gives: on a refusal the list is empty and all zero. No `Result`: what is promised (`Reads`, and `ReadRefusals` of demands) names the
// list beside a refusal.
#[derive(Clone, Copy)]
pub struct Reading {
    // The first refusal that applies, or success.
    pub verdict: Verdict,
    // The objects.
    pub list: Objects,
}

// A list of words with its verdict: on a refusal the list is empty and all zero. No `Result`: C hands it on.
#[repr(C)]
#[derive(Clone, Copy)]
pub struct Listing {
    // The first refusal that applies, or success.
    pub verdict: Verdict,
    // The words.
    pub list: Words,
}

// What a call that gives a list answers, from one that went on by `?`: on a refusal the list is empty. Each struct of an answer has one of these: an impl
// by a macro of ours would be refused.
impl From<Result<Words, Verdict>> for Listing {
    ghost from_gives = { λ r l. l ≡ listing_told r };

    fn from(made: Result<Words, Verdict>) -> Listing {
        match made {
            Ok(list) => Listing {
                verdict: PASSED,
                list,
            },
            Err(verdict) => refuse(verdict.number, verdict.place),
        }
    }
}

// An empty list, as it is on every refusal.
pub const NO_WORDS: Words = Words {
    words: [0; 7],
    count: 0,
};

// A place past the count: a fixed object with all fields zero.
pub const EMPTY_PLACE: Place = Place {
    object: Object::Fixed {
        flags: 0,
        peak: 0,
        volts: Mv50(0),
        current: Ma10(0),
    },
};
