// How the rows stand: one pass judges and sums them. Here is what it does before the first row, with each row, and at the end. The
// loop over the rows is `board`'s.
ghost use Rattle.std.specs.Prelude.{◌≡◌, ◌-◌, Ok};
ghost use Rattle.verdicts.specs.Refusals.{first_of, err, passed_by};
ghost use Rattle.rules.specs.Profiles.{half_watts};
ghost use Rattle.ports.specs.Refusing.{table_refusals};
ghost use Rattle.ports.specs.Standing.{row_refusals, end_refusals};
ghost use Rattle.ports.specs.Promises.{Begins, GoesOn, TakesRow, TellsAllOrNone, TellsPlace};

use crate::soundness::{fresh_fault, sound_fault};
use crate::{Row, Standing};
use steps::HalfWatts;
use verdicts::Verdict;

#[tactic(auto, unfolding(verdicts::specs::Refusals::first_of))]
fn table_fault(count: usize, capacity: HalfWatts) -> Result<(), Verdict>
    ensures { result ≡ passed_by (table_refusals capacity.0 count) }
{
    if !(1..=8).contains(&count) {
        return Err(Verdict::placeless(verdicts::ROW_COUNT));
    }
    if !(15 * count..=1600).contains(&usize::from(capacity.0)) {
        return Err(Verdict::placeless(verdicts::CAPACITY));
    }
    Ok(())
}

// How so many rows stand before the first is looked at. Its fault is 30, 32 or success.
#[tactic(auto, using(verdicts::proofs::Results::told_by), unfolding(crate::specs::Standing::begun))]
pub fn begin(count: usize, capacity: HalfWatts) -> Standing
    ensures { Begins count capacity result }
{
    Standing {
        fault: Verdict::from(table_fault(count, capacity)),
        count,
        held: 0,
    }
}

// How many rows to empty at set-up: all of them, and none after a refusal. Nothing is refused here.
#[tactic(auto, unfolding(crate::specs::Standing::all_or_none))]
pub fn all_or_none(standing: Standing) -> usize
    ensures { TellsAllOrNone standing result }
{
    if standing.stands() { standing.count } else { 0 }
}

// Whether there is a row to look at after so many: none after a refusal. Nothing is refused here.
#[tactic(auto, unfolding(crate::specs::Standing::goes_on))]
pub fn goes_on(standing: Standing, judged: usize) -> bool
    ensures { GoesOn standing judged result }
{
    standing.stands() && judged < standing.count
}

fn row_fault(row: Row, place: u8, fresh: bool) -> Result<(), Verdict>
    ensures { result ≡ passed_by (row_refusals fresh row place) }
{
    if fresh {
        fresh_fault(row, place)
    } else {
        sound_fault(row, place)
    }
}

// How the rows stand with one row more, whose place counts from 1; `fresh` is `FRESH` or `SOUND`. After a refusal nothing changes. Its
// fault is at set-up 31, then 4, in every other call 37, with that place. A standing that a caller makes up may hold anything, so the sum
// is cut to its 32 bits; that of eight sound rows is 1600 at most.
#[tactic(auto, using(verdicts::proofs::Results::told_by), unfolding(crate::specs::Standing::taken_row))]
pub fn take_row(standing: Standing, row: Row, place: u8, fresh: bool) -> Standing
    ensures { TakesRow standing row place fresh result }
{
    if !standing.stands() {
        return standing;
    }
    Standing {
        fault: Verdict::from(row_fault(row, place, fresh)),
        held: standing.held.wrapping_add(u32::from(row.held.0)),
        ..standing
    }
}

// What no row holds, or the first refusal so far, or 37 with place 0: the sum comes after the rows.
#[tactic(auto, unfolding(verdicts::specs::Refusals::first_of))]
pub(crate) fn spare(standing: Standing, capacity: HalfWatts) -> Result<HalfWatts, Verdict>
    ensures { result ≡ first_of err (end_refusals capacity.0 standing) (Ok (half_watts (capacity.0 - standing.held))) }
{
    standing.fault.passed()?;
    if u32::from(capacity.0) < standing.held {
        return Err(Verdict::placeless(verdicts::ROWS_NOT_SOUND));
    }
    Ok(HalfWatts(capacity.0 - standing.held as u16))
}

// Where the row of a port, which counts from 1, stands among the rows, from 0. After a refusal, or where there is no such port, it is past
// the end, and no Option: `TellsPlace` says so. Nothing is refused here.
#[tactic(auto, unfolding(crate::specs::Standing::place_of))]
pub fn place_of(standing: Standing, port: u8) -> usize
    ensures { TellsPlace standing port result }
{
    if !standing.stands() || port < 1 {
        return standing.count;
    }
    usize::from(port - 1)
}
