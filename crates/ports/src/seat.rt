// The seat of one port at the shared supply: its refusals, in their order (docs/STATEMENT.md, "Refusal numbers"), and the row that each
// call leaves.
ghost use Rattle.std.specs.Prelude.{◌≡◌, [], ◌∷◌, min, ltb, Ok};
ghost use Rattle.verdicts.specs.Refusals.{refusal, first_of, err};
ghost use Rattle.ports.specs.Rows.{offering, holding, emptied};
ghost use Rattle.ports.specs.Requests.{new_held};
ghost use Rattle.ports.specs.Standing.{port_end_refusals};
ghost use Rattle.ports.specs.Deciding.{left_beside, offered_beside, attach_end_refusals, use_end_refusals, request_end_refusals, change_told};

use crate::deciding::named_object;
use crate::judging::spare;
use crate::power::held_for;
use crate::{Change, NO_ROW, Row, Standing, emptied};
use steps::{HalfWatts, Ma10};
use verdicts::{PASSED, Verdict};

// What a call on one port goes by.
#[derive(Clone, Copy)]
pub(crate) struct Seat {
    // How the rows stand.
    pub standing: Standing,
    // The port's own row.
    pub row: Row,
    // What the supply has for all ports.
    pub capacity: HalfWatts,
    // The number of the port, from 1.
    pub port: u8,
}

impl Seat {
    // What the others leave for the port: what no row holds, and the row's own held. Refusals: that of the standing, 37, then 33.
    fn left(self) -> Result<u32, Verdict>
        ensures { result ≡ first_of err (port_end_refusals self.capacity.0 self.standing self.port) (Ok (left_beside self.capacity.0 self.standing self.row)) }
    {
        let spare = spare(self.standing, self.capacity)?;
        if !(1..=self.standing.count).contains(&usize::from(self.port)) {
            return Err(Verdict::placeless(verdicts::NO_SUCH_PORT));
        }
        Ok(u32::from(spare.0) + u32::from(self.row.held.0))
    }

    // The same of an empty port, to which this cable came. Refusals: those, then 3 and 34.
    fn left_if_empty(self, cable: Ma10) -> Result<u32, Verdict>
        ensures { result ≡ first_of err (attach_end_refusals self.capacity.0 self.standing self.row self.port cable.0) (Ok (left_beside self.capacity.0 self.standing self.row)) }
    {
        let left = self.left()?;
        if rules::bad_cable(cable) {
            return Err(Verdict::placeless(verdicts::CABLE));
        }
        if self.row.cable.0 != 0 {
            return Err(Verdict::at(verdicts::PORT_IN_USE, self.port));
        }
        Ok(left)
    }

    // The same of a port that is attached. Refusals: those, then 35.
    #[tactic(auto, using(crate::proofs::Passed::use_empty, crate::proofs::Passed::use_passes))]
    fn left_in_use(self) -> Result<u32, Verdict>
        ensures { result ≡ first_of err (use_end_refusals self.capacity.0 self.standing self.row self.port) (Ok (left_beside self.capacity.0 self.standing self.row)) }
    {
        let left = self.left()?;
        if self.row.cable.0 == 0 {
            return Err(Verdict::at(verdicts::PORT_NOT_ATTACHED, self.port));
        }
        Ok(left)
    }

    // The row with this cable, and its P anew: the smaller of M and what the others leave.
    #[tactic(auto, unfolding(crate::specs::Rows::offering))]
    fn offered(self, left: u32, cable: Ma10) -> Row
        ensures { result ≡ offering self.row (min self.row.max.0 left) cable.0 }
    {
        let present = u32::from(self.row.max.0).min(left);
        Row {
            cable,
            present: HalfWatts(present as u16),
            ..self.row
        }
    }

    // The row with so much held, or 36.
    #[tactic(auto, unfolding(verdicts::specs::Refusals::first_of, crate::specs::Rows::holding))]
    fn holding(self, left: u32, held: HalfWatts) -> Result<Row, Verdict>
        ensures { result ≡ first_of err (refusal (ltb left held.0) 36 self.port ∷ []) (Ok (holding self.row held.0)) }
    {
        if left < u32::from(held.0) {
            return Err(Verdict::at(verdicts::NO_POWER_NOW, self.port));
        }
        Ok(Row { held, ..self.row })
    }

    pub fn attached(self, cable: Ma10) -> Result<Row, Verdict>
        ensures { result ≡ first_of err (attach_end_refusals self.capacity.0 self.standing self.row self.port cable.0) (Ok (offered_beside self.capacity.0 self.standing self.row cable.0)) }
    {
        let left = self.left_if_empty(cable)?;
        Ok(self.offered(left, cable))
    }

    pub fn advertised(self) -> Result<Row, Verdict>
        ensures { result ≡ first_of err (use_end_refusals self.capacity.0 self.standing self.row self.port) (Ok (offered_beside self.capacity.0 self.standing self.row self.row.cable.0)) }
    {
        let left = self.left_in_use()?;
        Ok(self.offered(left, self.row.cable))
    }

    // Refusals: those of a port in use, then those of the list of its row, then 36.
    pub fn requested(self, word: u32) -> Result<Row, Verdict>
        ensures { result ≡ first_of err (request_end_refusals self.capacity.0 self.standing self.row self.port word) (Ok (holding self.row (new_held self.row word))) }
    {
        let left = self.left_in_use()?;
        let object = named_object(self.row, word)?;
        requests::judge(object, word).passed()?;
        let held = held_for(object, self.row.present, word);
        self.holding(left, held)
    }

    pub fn detached(self) -> Result<Row, Verdict>
        ensures { result ≡ first_of err (use_end_refusals self.capacity.0 self.standing self.row self.port) (Ok (emptied self.row)) }
    {
        self.left_in_use()?;
        Ok(emptied(self.row))
    }

    // A refusal names no row to write: there is none at the count. A row that is written has a port from 1.
    pub fn change(self, row: Result<Row, Verdict>) -> Change
        ensures { result ≡ change_told self.standing self.port row }
    {
        match row {
            Ok(row) => Change {
                answer: PASSED,
                at: usize::from(self.port.saturating_sub(1)),
                row,
            },
            Err(verdict) => Change {
                answer: verdict,
                at: self.standing.count,
                row: NO_ROW,
            },
        }
    }
}
