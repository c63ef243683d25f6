// The rule check of a list against a profile.
ghost use Rattle.std.specs.Prelude.{◌≡◌, ◌<◌, length};
ghost use Rattle.verdicts.specs.Refusals.{passed_by};
ghost use Rattle.rules.specs.Tables.{rails, fixed_slots, base_slots, slots};
ghost use Rattle.rules.specs.Checking.{check_refusals};
ghost use Rattle.rules.specs.Following.{object_at, step_by, step_if, followed, fault_said};
ghost use Rattle.rules.specs.Promises.{Checks};

use crate::Profile;
use crate::port::{Candidate, Port};
use crate::rows::Row;
use crate::tables::{AvsRow, RAILS, SUPPLIES};
use lists::Words;
use objects::Object;
use verdicts::Verdict;

// What stands where a row's object has to stand: another object or none, or the right one, with a current that is allowed or not.
#[derive(Clone, Copy)]
pub enum Found {
    Other,
    Allowed,
    NotAllowed,
}

// How far a list has been followed along the tables: the next place, and the place of the first word on the way whose current is not
// allowed, counted from 1.
#[derive(Clone, Copy)]
pub struct Walk {
    pub at: u8,
    pub fault: Option<u8>,
}

impl Walk {
    // One place further. The first current that is not allowed is kept. Where another object stands there is no way on.
    #[tactic(auto, unfolding(crate::specs::Following::step_by))]
    fn step(self, found: Found) -> Option<Walk>
        requires { self.at < 255 }
        ensures { result ≡ step_by self found }
    {
        let at = self.at + 1;
        match found {
            Found::Other => None,
            Found::Allowed => Some(Walk { at, ..self }),
            Found::NotAllowed => Some(Walk {
                at,
                fault: self.fault.or(Some(at)),
            }),
        }
    }

    // What is said of a list that has been followed to its end.
    fn judged(self) -> Result<(), Verdict>
        ensures { result ≡ fault_said self.fault }
    {
        match self.fault {
            Some(place) => Err(Verdict::at(verdicts::CURRENT_NOT_ALLOWED, place)),
            None => Ok(()),
        }
    }
}

impl<'a> Candidate<'a> {
    // The object at a place; past the count there is none.
    #[tactic(auto, unfolding(crate::specs::Following::object_at))]
    fn object_at(&self, at: u8) -> Option<Object>
        ensures { result ≡ object_at self.now.list.now at }
    {
        if at < self.list.count {
            return objects::decode(self.list.words[at as usize]);
        }
        None
    }

    // One place further, where the port has the row's object.
    #[tactic(auto, using(crate::proofs::Steps::step_is, crate::proofs::Steps::step_past, crate::proofs::Steps::before))]
    fn follow_row<R: Row>(&self, row: R, walk: Walk) -> Option<Walk>
        requires { R.real row }
        ensures { result ≡ step_if (R.there self.now.port.profile.max.0 row) self.now.port.profile self.now.list.now (R.slot self.now.port.profile.max.0 row) walk }
    {
        if row.is_there(self.port.profile.max) {
            let o = self.object_at(walk.at)?;
            let found = row.find(self.port, o);
            return walk.step(found);
        }
        Some(walk)
    }

    // One loop for each table, as in the builder.
    fn follow_rails(&self) -> Option<Walk>
        ensures { result ≡ followed self.now.port.profile self.now.list.now (length (fixed_slots self.now.port.profile.max.0 rails)) }
    {
        let mut walk = Walk { at: 0, fault: None };
        for row in RAILS {
            walk = self.follow_row(row, walk)?;
        }
        Some(walk)
    }

    // What a list without programmable supplies has.
    fn follow_base(&self) -> Option<Walk>
        ensures { result ≡ followed self.now.port.profile self.now.list.now (length (base_slots self.now.port.profile.max.0)) }
    {
        let rails = self.follow_rails()?;
        self.follow_row(AvsRow, rails)
    }

    fn follow_supplies(&self, base: Walk) -> Option<Walk>
        requires { followed self.now.port.profile self.now.list.now (length (base_slots self.now.port.profile.max.0)) ≡ Some base }
        ensures { result ≡ followed self.now.port.profile self.now.list.now (length (slots self.now.port.profile.max.0)) }
    {
        let mut walk = base;
        for row in SUPPLIES {
            walk = self.follow_row(row, walk)?;
        }
        Some(walk)
    }

    // The set of objects (18), then the currents (19).
    fn judged(&self) -> Result<(), Verdict>
        ensures { result ≡ passed_by (check_refusals self.now.port.profile self.now.list.now) }
    {
        let wrong_set = Verdict::placeless(verdicts::WRONG_SET);
        let Some(base) = self.follow_base() else {
            return Err(wrong_set);
        };
        if base.at == self.list.count {
            return base.judged();
        }
        if self.port.profile.present < self.port.profile.max {
            return Err(wrong_set);
        }
        let Some(full) = self.follow_supplies(base) else {
            return Err(wrong_set);
        };
        if full.at == self.list.count {
            return full.judged();
        }
        Err(wrong_set)
    }
}

#[tactic(auto, using(crate::proofs::Checks::bad_profile))]
fn checked(p: Profile, list: Words) -> Result<(), Verdict>
    ensures { result ≡ passed_by (check_refusals p list) }
{
    let port = Port::try_from(p)?;
    lists::shape(list).passed()?;
    Candidate { port, list: &list }.judged()
}

// Whether a list keeps to the power rules of a profile. Rounding, PPS wanted and flags have to be in range, and do not matter beyond
// that. Refusals: 1, 2, 3, 4, 5; those of `lists::shape`; 18; 19 (the first such word).
pub fn check(p: Profile, list: Words) -> Verdict
    ensures { Checks p list result }
{
    Verdict::from(checked(p, list))
}
