// Lists and requests under their C names: each call hands its arguments to the floor below. C already has a `read` and a
// `write`, so every name begins with `arin_`. Objects are flat here, since C has no enum with data.
ghost use Rattle.board.specs.ListPromises.{ArinDefaults, ArinBuilds, ArinChecks, ArinShapes, ArinReads, ArinWrites, ArinAnswers};

use flat::{FlatObjects, FlatReading};
use lists::{Listing, Words};
use rules::{Profile, Profiled};
use steps::HalfWatts;
use verdicts::Verdict;

// The default profile of a port maximum in half watts: present power is the maximum, a 3 A cable, rounded down, no PPS, no flags.
// Refusals: 1.
pub fn arin_default_profile(max: u16) -> Profiled
    ensures { ArinDefaults max result }
{
    rules::default_profile(HalfWatts(max))
}

// The list that a port with this profile advertises. Refusals: 1, 2, 3, 4, 5, 6.
pub fn arin_build(profile: Profile) -> Listing
    ensures { ArinBuilds profile result }
{
    rules::build(profile)
}

// Whether a list keeps to the power rules of a profile. Rounding, PPS wanted and flags have to be in range, and do not matter beyond
// that. Refusals: 1, 2, 3, 4, 5; those of `arin_shape`; 18; 19 (the first such word).
pub fn arin_check(profile: Profile, list: Words) -> Verdict
    ensures { ArinChecks profile list result }
{
    rules::check(profile, list)
}

// Whether these words make an SPR source list. Refusals: 10; 11 (place 1); then word by word 12, 13, 15, 16, 14 (the word); 17 (the AVS
// word).
pub fn arin_shape(list: Words) -> Verdict
    ensures { ArinShapes list result }
{
    lists::shape(list)
}

// The objects of a list. Refusals: those of `arin_shape`.
pub fn arin_read(list: Words) -> FlatReading
    ensures { ArinReads list result }
{
    flat::flat_read(list)
}

// The words of a list of objects. Refusals: 10; 7 (the first such object); then those of `arin_shape` for the words made. An object whose
// kind is none of the five has no field that could be too wide: it gets 11 where it is the first, else 12 at its place.
pub fn arin_write(list: FlatObjects) -> Listing
    ensures { ArinWrites list result }
{
    flat::flat_write(list)
}

// Whether a request word may be accepted on the list that was advertised. Reserved bits of the word are ignored. Refusals: those of
// `arin_shape`, with their places; then 20, 23, 22, 24, 25, with place 0.
pub fn arin_answer(list: Words, word: u32) -> Verdict
    ensures { ArinAnswers list word result }
{
    requests::answer(list, word)
}
