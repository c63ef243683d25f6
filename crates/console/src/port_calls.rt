// The sharing calls, over the console's own rows. Each is handed the fields behind its name.
ghost use Rattle.std.specs.Prelude.{[], ◌∷◌, ◌++◌, Some};
ghost use Rattle.lines.specs.Numbers.{numbers_text, verdict_text};

use lines::{Fields, ListingText, Unreadable, VerdictText};
use ports::{RemainingPower, Row};
use std::fmt;

// The verdict, and what no port holds.
#[derive(Clone, Copy)]
pub(crate) struct RemainingText(RemainingPower);

impl fmt::Display for RemainingText {
    ghost output = { λ r. Some (verdict_text r.0.verdict.number r.0.verdict.place ++ numbers_text (r.0.power.0 ∷ [])) };

    fn fmt<W: fmt::Write>(&self, f: &mut fmt::Formatter<W>) -> fmt::Result {
        let RemainingPower { verdict, power } = self.0;
        write!(f, "{} {}", VerdictText(verdict), power.0)
    }
}

pub(crate) fn set_up_line(
    rows: &mut [Row],
    mut fields: Fields<'_>,
) -> Result<VerdictText, Unreadable> {
    let capacity = fields.number()?;
    fields.end()?;
    Ok(VerdictText(board::arin_set_up(rows, capacity)))
}

pub(crate) fn attach_line(
    rows: &mut [Row],
    mut fields: Fields<'_>,
) -> Result<ListingText, Unreadable> {
    let capacity = fields.number()?;
    let port = fields.number()?;
    let cable = fields.number()?;
    fields.end()?;
    Ok(ListingText(board::arin_attach(rows, capacity, port, cable)))
}

pub(crate) fn advertise_line(
    rows: &mut [Row],
    mut fields: Fields<'_>,
) -> Result<ListingText, Unreadable> {
    let capacity = fields.number()?;
    let port = fields.number()?;
    fields.end()?;
    Ok(ListingText(board::arin_advertise(rows, capacity, port)))
}

pub(crate) fn request_line(
    rows: &mut [Row],
    mut fields: Fields<'_>,
) -> Result<VerdictText, Unreadable> {
    let capacity = fields.number()?;
    let port = fields.number()?;
    let word = fields.word()?;
    fields.end()?;
    Ok(VerdictText(board::arin_request(rows, capacity, port, word)))
}

pub(crate) fn detach_line(
    rows: &mut [Row],
    mut fields: Fields<'_>,
) -> Result<VerdictText, Unreadable> {
    let capacity = fields.number()?;
    let port = fields.number()?;
    fields.end()?;
    Ok(VerdictText(board::arin_detach(rows, capacity, port)))
}

pub(crate) fn remaining_line(
    rows: &[Row],
    mut fields: Fields<'_>,
) -> Result<RemainingText, Unreadable> {
    let capacity = fields.number()?;
    fields.end()?;
    Ok(RemainingText(board::arin_remaining(rows, capacity)))
}
