// What each sharing call decides (docs/STATEMENT.md, "Ports that share").
ghost use Rattle.std.specs.Prelude.{◌≡◌};
ghost use Rattle.rules.specs.Building.{built_of};
ghost use Rattle.ports.specs.RuleLists.{rule_pps, rule_profile, rule_list};
ghost use Rattle.ports.specs.Deciding.{object_in, named_in};
ghost use Rattle.ports.specs.Promises.{Attaches, Advertises, Offers, Requests, Detaches, Remains};

use crate::judging::spare;
use crate::seat::Seat;
use crate::{Change, RemainingPower, Row, Standing};
use lists::Listing;
use objects::Object;
use rules::Profile;
use steps::{HalfWatts, Ma10};
use verdicts::Verdict;

// PPS exactly where it is wanted and P = M.
#[tactic(auto, unfolding(crate::specs::RuleLists::rule_pps))]
fn rule_pps(row: Row) -> u8
    ensures { result ≡ rule_pps row }
{
    u8::from(row.pps == 1 && row.present == row.max)
}

// What the list of a row is built for.
#[tactic(auto, unfolding(crate::specs::RuleLists::rule_profile))]
fn rule_profile(row: Row) -> Profile
    ensures { result ≡ rule_profile row }
{
    Profile {
        max: row.max,
        present: row.present,
        cable: row.cable,
        rounding: 0,
        pps: rule_pps(row),
        flags: 0,
    }
}

// The object that a request names in a built list. Its word alone is made.
fn object_in(profile: Profile, word: u32) -> Option<Object>
    ensures { result ≡ object_in (built_of profile).list word }
{
    let w = rules::word_at(profile, requests::position(word))?;
    objects::decode(w)
}

// The object that a request names in the list of a row. Where the list has no such place: 10 if it is empty, since none can be built for
// the row, else 20.
pub(crate) fn named_object(row: Row, word: u32) -> Result<Object, Verdict>
    ensures { result ≡ named_in (rule_list row) word }
{
    let profile = rule_profile(row);
    if let Some(object) = object_in(profile, word) {
        return Ok(object);
    }
    if rules::word_at(profile, 1).is_none() {
        return Err(Verdict::placeless(verdicts::COUNT));
    }
    Err(Verdict::placeless(verdicts::POSITION))
}

// The four calls differ in what the seat decides; each has its name, its parameters and its promise (`Attaches` and its kin), since theorems of `demands` speak of each.

// A cable came to an empty port: its row with this cable and a present power anew, which is the smaller of its maximum and what the
// other rows leave. `offer` makes the list. Refusals: that of the standing (30, 32 or 37), 37 for the sum, 33, 3, 34 (the port).
#[tactic(auto, using(crate::proofs::Passed::change_decided), unfolding(crate::specs::Deciding::attach_change))]
pub fn attach(standing: Standing, row: Row, capacity: HalfWatts, port: u8, cable: Ma10) -> Change
    ensures { Attaches standing row capacity port cable result }
{
    let seat = Seat {
        standing,
        row,
        capacity,
        port,
    };
    seat.change(seat.attached(cable))
}

// An attached port is to be advertised again: its row with its present power anew. `offer` makes the list. Refusals: that of the standing
// (30, 32 or 37), 37 for the sum, 33, 35 (the port).
#[tactic(auto, using(crate::proofs::Passed::change_decided), unfolding(crate::specs::Deciding::advertise_change))]
pub fn advertise(standing: Standing, row: Row, capacity: HalfWatts, port: u8) -> Change
    ensures { Advertises standing row capacity port result }
{
    let seat = Seat {
        standing,
        row,
        capacity,
        port,
    };
    seat.change(seat.advertised())
}

// The list to send for what `attach` or `advertise` decided. Refusals: that of the change; 1, 2, 3 for a row that no list can be
// built for.
#[tactic(auto, unfolding(verdicts::specs::Refusals::first_of, crate::specs::Deciding::offer_of))]
pub fn offer(change: Change) -> Listing
    ensures { Offers change result }
{
    if let Err(verdict) = change.answer.passed() {
        return Listing::from(Err(verdict));
    }
    rules::build(rule_profile(change.row))
}

// A request judged on the list of the row's present power. On success the row holds what the request needs: voltage times operating
// current, rounded up to a half watt, at least 15 half watts, and for PPS at most its present power. Refusals: that of the standing (30, 32
// or 37), 37 for the sum, 33, 35 (the port), then 20, 23, 22, 24, 25, then 36 (the port). For a row that no list can be built for, 10 stands
// in the place of 20.
#[tactic(auto, using(crate::proofs::Passed::change_decided), unfolding(crate::specs::Deciding::request_change))]
pub fn request(standing: Standing, row: Row, capacity: HalfWatts, port: u8, word: u32) -> Change
    ensures { Requests standing row capacity port word result }
{
    let seat = Seat {
        standing,
        row,
        capacity,
        port,
    };
    seat.change(seat.requested(word))
}

// The cable of an attached port is gone: its row, emptied. Refusals: that of the standing (30, 32 or 37), 37 for the sum, 33, 35 (the
// port).
#[tactic(auto, using(crate::proofs::Passed::change_decided), unfolding(crate::specs::Deciding::detach_change))]
pub fn detach(standing: Standing, row: Row, capacity: HalfWatts, port: u8) -> Change
    ensures { Detaches standing row capacity port result }
{
    let seat = Seat {
        standing,
        row,
        capacity,
        port,
    };
    seat.change(seat.detached())
}

// What no row holds: the capacity less all that is held. Refusals: that of the standing (30, 32 or 37), 37 for the sum.
#[tactic(auto, using(crate::proofs::Passed::power_decided), unfolding(crate::specs::Deciding::power_left))]
pub fn remaining(standing: Standing, capacity: HalfWatts) -> RemainingPower
    ensures { Remains standing capacity result }
{
    RemainingPower::from(spare(standing, capacity))
}
