// When rows are sound, and when they can be set up. Figures are compared as numbers: measures compare by reference, and a row that is referred
// to is taken out of memory whole, which costs each sharing call a tenth of its time and more.
ghost use Rattle.std.specs.Prelude.{◌≡◌, ◌&&◌};
ghost use Rattle.verdicts.specs.Refusals.{passed_by};
ghost use Rattle.steps.specs.Ranges.{within};
ghost use Rattle.ports.specs.Soundness.{sound_empty, sound_attached, sound_row};
ghost use Rattle.ports.specs.Refusing.{fresh_row, fault_row};

use crate::Row;
use verdicts::Verdict;

fn sound_empty(row: Row) -> bool
    ensures { result ≡ (within 15 200 row.max.0 && sound_empty row) }
{
    15 <= row.max.0 && row.max.0 <= 200 && row.present.0 == 0 && row.held.0 == 15
}

// An M below 15 is below a held of 15.
fn sound_attached(row: Row) -> bool
    ensures { result ≡ (within 15 200 row.max.0 && sound_attached row) }
{
    !rules::bad_cable(row.cable)
        && 15 <= row.held.0
        && row.held.0 <= row.present.0
        && row.present.0 <= row.max.0
        && row.max.0 <= 200
}

#[tactic(auto, unfolding(crate::specs::Soundness::sound_row))]
pub(crate) fn sound_row(row: Row) -> bool
    ensures { result ≡ sound_row row }
{
    if 1 < row.pps {
        return false;
    }
    if row.cable.0 == 0 {
        sound_empty(row)
    } else {
        sound_attached(row)
    }
}

// 37 with the row's place.
#[tactic(auto, unfolding(verdicts::specs::Refusals::first_of))]
pub(crate) fn sound_fault(row: Row, place: u8) -> Result<(), Verdict>
    ensures { result ≡ passed_by (fault_row row place) }
{
    if !sound_row(row) {
        return Err(Verdict::at(verdicts::ROWS_NOT_SOUND, place));
    }
    Ok(())
}

// What set-up looks at in one row: 31, then 4.
#[tactic(auto, unfolding(verdicts::specs::Refusals::first_of))]
pub(crate) fn fresh_fault(row: Row, place: u8) -> Result<(), Verdict>
    ensures { result ≡ passed_by (fresh_row row place) }
{
    if row.max.0 < 15 || 200 < row.max.0 {
        return Err(Verdict::at(verdicts::SET_UP_MAXIMUM, place));
    }
    if 1 < row.pps {
        return Err(Verdict::at(verdicts::NOT_A_CHOICE, place));
    }
    Ok(())
}
