// Reading: from words to flat objects.
ghost use Rattle.std.specs.Prelude.{◌≡◌, ◌≤◌};
ghost use Rattle.objects.specs.Decode.{decode_of};
ghost use Rattle.lists.specs.Reading.{object_of, objects_to};
ghost use Rattle.flat.specs.Flat.{flat_of};
ghost use Rattle.flat.specs.Reading.{flat_objects};
ghost use Rattle.flat.specs.Promises.{FlatReads, FlatReadsFor};

use crate::flattening::flatten;
use crate::{EMPTY_FLAT, FlatObject, FlatObjects, FlatReading};
use lists::Words;
use objects::Side;

fn flat_word(w: u32) -> FlatObject
    ensures { result ≡ flat_of (object_of (decode_of w)) }
{
    match objects::decode(w) {
        Some(object) => flatten(object),
        None => EMPTY_FLAT,
    }
}

// The objects of so many words, each in its place; empty places past them. The decoded list is not made: a flat one is all that is wanted.
// C gets the struct, which can have no parameter, so this is no instance of what `lists` has.
fn flatten_words(list: Words, count: u8) -> FlatObjects
    requires { count ≤ 7 }
    ensures { result ≡ flat_objects (objects_to list.words count) }
{
    let mut places = [EMPTY_FLAT; 7];
    for (i, w) in list.words[..count as usize].iter().enumerate() {
        places[i] = flat_word(*w);
    }
    FlatObjects { places, count }
}

// The objects of a list of this side, as flat ones. Refusals: those of `lists::shape_for`, with their places. In a list of a sink every
// peak current and power limited is zero, since its shape passes.
pub fn flat_read_for(side: Side, list: Words) -> FlatReading
    ensures { FlatReadsFor side list result }
{
    let shaped = lists::readable(side, list);
    FlatReading {
        verdict: shaped.verdict,
        list: flatten_words(list, shaped.count),
    }
}

// The objects of a list, as `lists::read` gives them. Refusals: those of `lists::shape`, with their places.
pub fn flat_read(list: Words) -> FlatReading
    ensures { FlatReads list result }
{
    flat_read_for(Side::Source, list)
}
