// A port that the private functions go by: one whose profile is not refused.
ghost use Rattle.std.specs.Prelude.{◌≡◌, ◌≤◌};
ghost use Rattle.verdicts.specs.Refusals.{verdict_of};
ghost use Rattle.lists.specs.Shape.{shape_of};
ghost use Rattle.rules.specs.Profiles.{profile_refusals, Within};

use crate::Profile;
use lists::Words;

// Made from a profile in one place (`profiles.rt`), which refuses any other.
#[derive(Clone, Copy)]
pub(crate) struct Port {
    pub(crate) profile: Profile,
    ghost passed: { (verdict_of (profile_refusals profile)).number ≡ 0 },
    ghost within: { Within profile },
}

// A list that is checked for a port. Its shape has passed, so it has at most seven words.
#[derive(Clone, Copy)]
pub(crate) struct Candidate<'a> {
    pub(crate) port: Port,
    pub(crate) list: &'a Words,
    ghost shaped: { (shape_of list.now).number ≡ 0 },
    ghost seven: { list.now.count ≤ 7 },
}
