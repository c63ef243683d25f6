// Lists and requests under their C names: each call hands its arguments to `board`, where its comment says what it answers.
ghost use Rattle.board.specs.ListPromises.{ArinDefaults, ArinBuilds, ArinChecks, ArinShapes, ArinReads, ArinWrites, ArinAnswers};

use flat::{FlatObjects, FlatReading};
use lists::{Listing, Words};
use rules::{Profile, Profiled};
use verdicts::Verdict;

#[unsafe(no_mangle)]
pub extern "C" fn arin_default_profile(max: u16) -> Profiled
    ensures { ArinDefaults max result }
{
    board::arin_default_profile(max)
}

#[unsafe(no_mangle)]
pub extern "C" fn arin_build(profile: Profile) -> Listing
    ensures { ArinBuilds profile result }
{
    board::arin_build(profile)
}

#[unsafe(no_mangle)]
pub extern "C" fn arin_check(profile: Profile, list: Words) -> Verdict
    ensures { ArinChecks profile list result }
{
    board::arin_check(profile, list)
}

#[unsafe(no_mangle)]
pub extern "C" fn arin_shape(list: Words) -> Verdict
    ensures { ArinShapes list result }
{
    board::arin_shape(list)
}

#[unsafe(no_mangle)]
pub extern "C" fn arin_read(list: Words) -> FlatReading
    ensures { ArinReads list result }
{
    board::arin_read(list)
}

#[unsafe(no_mangle)]
pub extern "C" fn arin_write(list: FlatObjects) -> Listing
    ensures { ArinWrites list result }
{
    board::arin_write(list)
}

#[unsafe(no_mangle)]
pub extern "C" fn arin_answer(list: Words, word: u32) -> Verdict
    ensures { ArinAnswers list word result }
{
    board::arin_answer(list, word)
}
