// Sink lists under their C names: each call hands its arguments to `board`, where its comment says what it answers.
ghost use Rattle.board.specs.SinkPromises.{ArinSinkShapes, ArinSinkReads, ArinSinkWrites, ArinSinkChecks};

use flat::{FlatObjects, FlatReading};
use lists::{Listing, Words};
use verdicts::Verdict;

#[unsafe(no_mangle)]
pub extern "C" fn arin_sink_shape(list: Words) -> Verdict
    ensures { ArinSinkShapes list result }
{
    board::arin_sink_shape(list)
}

#[unsafe(no_mangle)]
pub extern "C" fn arin_sink_read(list: Words) -> FlatReading
    ensures { ArinSinkReads list result }
{
    board::arin_sink_read(list)
}

#[unsafe(no_mangle)]
pub extern "C" fn arin_sink_write(list: FlatObjects) -> Listing
    ensures { ArinSinkWrites list result }
{
    board::arin_sink_write(list)
}

#[unsafe(no_mangle)]
pub extern "C" fn arin_sink_check(rating: u16, list: Words) -> Verdict
    ensures { ArinSinkChecks rating list result }
{
    board::arin_sink_check(rating, list)
}
