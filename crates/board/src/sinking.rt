// Sink lists under their C names: each call hands its arguments to the floor below. Objects are flat, in the struct of the source side.
ghost use Rattle.board.specs.SinkPromises.{ArinSinkShapes, ArinSinkReads, ArinSinkWrites, ArinSinkChecks};

use flat::{FlatObjects, FlatReading};
use lists::{Listing, Words};
use objects::Side;
use steps::HalfWatts;
use verdicts::Verdict;

// Whether these words make a sink list. Refusals: 10; 11 (place 1); then word by word 12, 13, 15, 16, 14 (the word).
pub fn arin_sink_shape(list: Words) -> Verdict
    ensures { ArinSinkShapes list result }
{
    sinks::sink_shape(list)
}

// The objects of a sink list; peak current and power limited, which no sink has, are zero. Refusals: those of `arin_sink_shape`.
pub fn arin_sink_read(list: Words) -> FlatReading
    ensures { ArinSinkReads list result }
{
    flat::flat_read_for(Side::Sink, list)
}

// The words of a list of sink objects; their peak current and power limited are not looked at. Refusals: 10; 7 (the first such object);
// then those of `arin_sink_shape` for the words made. An object whose kind is none of the four has no field that could be too wide: it gets
// 11 where it is the first, else 12 at its place.
pub fn arin_sink_write(list: FlatObjects) -> Listing
    ensures { ArinSinkWrites list result }
{
    flat::flat_write_for(Side::Sink, list)
}

// Whether a sink list keeps to the rating, in half watts, that the sink is designed for. Refusals: 1; those of `arin_sink_shape`; 43.
pub fn arin_sink_check(rating: u16, list: Words) -> Verdict
    ensures { ArinSinkChecks rating list result }
{
    sinks::sink_check(HalfWatts(rating), list)
}
