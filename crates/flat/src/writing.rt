// Writing: from flat objects to words.
ghost use Rattle.std.specs.Prelude.{◌≡◌};
ghost use Rattle.objects.specs.Encode.{encoded_says};
ghost use Rattle.flat.specs.Flat.{raised_for};
ghost use Rattle.flat.specs.Writing.{encoded_raised, flat_made_for};
ghost use Rattle.flat.specs.Promises.{FlatWrites, FlatWritesFor};

use crate::flattening::raise_for;
use crate::{FlatObject, FlatObjects};
use lists::{Listing, Words};
use objects::Side;
use verdicts::Verdict;

// A word of the kind 1111b, which no list may have. It stands for a flat object of no kind, so that the shape of the words refuses that
// one in its turn.
const NO_KIND: u32 = objects::BITS_UNASSIGNED << 28;

fn encode_flat(side: Side, flat: FlatObject) -> Option<u32>
    ensures { encoded_says result ≡ encoded_says (encoded_raised (raised_for side flat)) }
{
    match raise_for(side, flat) {
        Some(object) => objects::encode(object),
        None => Some(NO_KIND),
    }
}

// The word of each object, until one has a field too wide. As in `lists`: a common one would take a closure, of which only what it says is known
// here (`encoded_says`).
fn encode_places(side: Side, list: FlatObjects) -> Result<Words, Verdict>
    ensures { result ≡ flat_made_for side list }
{
    let count = list.count;
    if lists::bad_count(count) {
        return Err(Verdict::placeless(verdicts::COUNT));
    }
    let mut words = [0u32; 7];
    for (i, flat) in list.places[..count as usize].iter().enumerate() {
        words[i] = encode_flat(side, *flat).ok_or(Verdict::at(
            verdicts::FIELD_TOO_WIDE,
            i as u8 + 1,
        ))?;
    }
    Ok(Words { words, count })
}

// The words of a list of objects of this side. Refusals: 10; 7 (the first such object); then those of `lists::shape_for` for the words made.
// An object whose kind is none that its side has has no field that could be too wide: it gets 11 where it is the first, else 12 at its
// place.
pub fn flat_write_for(side: Side, list: FlatObjects) -> Listing
    ensures { FlatWritesFor side list result }
{
    lists::finished(side, Listing::from(encode_places(side, list)))
}

// The words of a list of objects, as `lists::write` makes them. Refusals: 10; 7 (the first such object); then those of `lists::shape` for
// the words made. An object whose kind is none of the five has no field that could be too wide: it gets 11 where it is the first, else 12
// at its place.
pub fn flat_write(list: FlatObjects) -> Listing
    ensures { FlatWrites list result }
{
    flat_write_for(Side::Source, list)
}
