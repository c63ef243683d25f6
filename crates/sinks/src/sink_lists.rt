// The list of a sink: its shape, reading and writing (docs/STATEMENT.md, "Shape of a sink list").
ghost use Rattle.std.specs.Prelude.{◌≡◌, ◌≤◌};
ghost use Rattle.sinks.specs.SinkLists.{sink_place, sink_objects_to, sink_made_of};
ghost use Rattle.sinks.specs.Promises.{SinkShapes, SinkReads, SinkWrites};

use crate::sink_words::{sink_decode, sink_encode};
use crate::{EMPTY_SINK_PLACE, SinkObjects, SinkPlace, SinkReading};
use lists::{Listing, Words};
use objects::Side;
use verdicts::Verdict;

// Whether these words make a sink list. Refusals: 10; 11 (place 1); then word by word 12, 13, 15, 16, 14 (the word).
pub fn sink_shape(list: Words) -> Verdict
    ensures { SinkShapes list result }
{
    lists::shape_for(Side::Sink, list)
}

// The object of a word. A list whose shape passes has one in every word.
fn place_of(w: u32) -> SinkPlace
    ensures { result ≡ sink_place w }
{
    match sink_decode(w) {
        Some(object) => SinkPlace { object },
        None => EMPTY_SINK_PLACE,
    }
}

// The sink objects of so many words, each in its place; empty places past them. As `lists` and `flat` have it for their structs: one function for
// all three would take an array of a type parameter and a closure, and be longer than these lines.
fn decode_words(list: Words, count: u8) -> SinkObjects
    requires { count ≤ 7 }
    ensures { result ≡ sink_objects_to list.words count }
{
    let mut places = [EMPTY_SINK_PLACE; 7];
    for (i, w) in list.words[..count as usize].iter().enumerate() {
        places[i] = place_of(*w);
    }
    SinkObjects { places, count }
}

// The objects of a sink list. Refusals: those of `sink_shape`, with their places.
pub fn sink_read(list: Words) -> SinkReading
    ensures { SinkReads list result }
{
    let shaped = lists::readable(Side::Sink, list);
    SinkReading {
        verdict: shaped.verdict,
        list: decode_words(list, shaped.count),
    }
}

// The word of each sink object, until one has a field too wide. As in `lists`: a common one would take a closure, and be longer than these lines.
fn encode_places(list: SinkObjects) -> Result<Words, Verdict>
    ensures { result ≡ sink_made_of list }
{
    let count = list.count;
    if lists::bad_count(count) {
        return Err(Verdict::placeless(verdicts::COUNT));
    }
    let mut words = [0u32; 7];
    for (i, place) in list.places[..count as usize].iter().enumerate() {
        words[i] = sink_encode(place.object).ok_or(Verdict::at(
            verdicts::FIELD_TOO_WIDE,
            i as u8 + 1,
        ))?;
    }
    Ok(Words { words, count })
}

// The words of a list of sink objects. Refusals: 10; 7 (the first such object); then those of `sink_shape` for the words made.
#[tactic(auto, using(crate::proofs::Makings::making_finished))]
pub fn sink_write(list: SinkObjects) -> Listing
    ensures { SinkWrites list result }
{
    lists::finished(Side::Sink, Listing::from(encode_places(list)))
}
