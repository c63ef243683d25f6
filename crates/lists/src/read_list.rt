// Reading: from words to objects.
ghost use Rattle.std.specs.Prelude.{◌≡◌, ◌≤◌};
ghost use Rattle.lists.specs.Reading.{objects_to};
ghost use Rattle.lists.specs.Promises.{Reads};

use crate::shape_check::readable;
use crate::{EMPTY_PLACE, Objects, Place, Reading, Words};
use objects::Side;

// The objects of so many words, each in its place; empty places past them.
fn decode_words(list: Words, count: u8) -> Objects
    requires { count ≤ 7 }
    ensures { result ≡ objects_to list.words count }
{
    let mut places = [EMPTY_PLACE; 7];
    for (i, w) in list.words[..count as usize].iter().enumerate() {
        if let Some(object) = objects::decode(*w) {
            places[i] = Place { object };
        }
    }
    Objects { places, count }
}

// The objects of a list. Refusals: those of `shape`, with their places.
pub fn read(list: Words) -> Reading
    ensures { Reads list result }
{
    let shaped = readable(Side::Source, list);
    Reading {
        verdict: shaped.verdict,
        list: decode_words(list, shaped.count),
    }
}
