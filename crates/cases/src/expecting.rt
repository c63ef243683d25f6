// Whether the library answers what is wanted: the verdict, the count and all seven words.
use lists::Words;
use rules::Profile;
use steps::HalfWatts;
use verdicts::{SUCCESS, Verdict};

// The number of a refusal and its place, as the page has them: the tables write numbers out, not the library's names.
pub(crate) type Refusal = (u8, u8);

pub(crate) const PASSES: Refusal = (SUCCESS, 0);

fn is(verdict: Verdict, wanted: Refusal) -> bool {
    (verdict.number, verdict.place) == wanted
}

pub(crate) fn checks(p: Profile, list: Words, wanted: Refusal) -> bool {
    is(rules::check(p, list), wanted)
}

// The list that is built, and it passes the rule check of its own profile.
pub(crate) fn is_built(p: Profile, wanted: Words) -> bool {
    let built = rules::build(p);
    let list = built.list;
    is(built.verdict, PASSES)
        && list.count == wanted.count
        && list.words == wanted.words
        && checks(p, wanted, PASSES)
}

// "Where only M is given the profile is the default one."
pub(crate) fn is_default(max: u16, wanted: Words) -> bool {
    let default = rules::default_profile(HalfWatts(max));
    is(default.verdict, PASSES) && is_built(default.profile, wanted)
}

// A request's own refusals have place 0.
pub(crate) fn answers(list: Words, request: u32, number: u8) -> bool {
    is(requests::answer(list, request), (number, 0))
}
