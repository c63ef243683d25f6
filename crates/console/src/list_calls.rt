// The calls that take a profile or a list and leave the port rows alone. Each is handed the fields behind its name.
ghost use Rattle.std.specs.Prelude.{[], ◌∷◌, ◌++◌, Some};
ghost use Rattle.lines.specs.Numbers.{numbers_text, verdict_text};

use lines::{Fields, ListingText, NumbersText, Unreadable, VerdictText};
use rules::{Profile, Profiled};
use std::fmt;
use steps::{HalfWatts, Ma10};

// `M P C R W F`
fn take_profile(fields: &mut Fields<'_>) -> Result<Profile, Unreadable> {
    Ok(Profile {
        max: HalfWatts(fields.number()?),
        present: HalfWatts(fields.number()?),
        cable: Ma10(fields.number()?),
        rounding: fields.number()?,
        pps: fields.number()?,
        flags: fields.number()?,
    })
}

// The verdict, and the six numbers of the profile.
#[derive(Clone, Copy)]
pub(crate) struct DefaultText(Profiled);

impl fmt::Display for DefaultText {
    ghost output = { λ d. Some (verdict_text d.0.verdict.number d.0.verdict.place ++ numbers_text (d.0.profile.max.0 ∷ d.0.profile.present.0 ∷ d.0.profile.cable.0 ∷ d.0.profile.rounding ∷ d.0.profile.pps ∷ d.0.profile.flags ∷ [])) };

    fn fmt<W: fmt::Write>(&self, f: &mut fmt::Formatter<W>) -> fmt::Result {
        let Profiled { verdict, profile } = self.0;
        let Profile {
            max,
            present,
            cable,
            rounding,
            pps,
            flags,
        } = profile;
        let numbers = [
            max.0,
            present.0,
            cable.0,
            u16::from(rounding),
            u16::from(pps),
            u16::from(flags),
        ];
        write!(f, "{}{}", VerdictText(verdict), NumbersText(&numbers))
    }
}

pub(crate) fn default_line(mut fields: Fields<'_>) -> Result<DefaultText, Unreadable> {
    let max = HalfWatts(fields.number()?);
    fields.end()?;
    Ok(DefaultText(rules::default_profile(max)))
}

pub(crate) fn build_line(mut fields: Fields<'_>) -> Result<ListingText, Unreadable> {
    let profile = take_profile(&mut fields)?;
    fields.end()?;
    Ok(ListingText(rules::build(profile)))
}

pub(crate) fn check_line(mut fields: Fields<'_>) -> Result<VerdictText, Unreadable> {
    let profile = take_profile(&mut fields)?;
    let list = fields.last_list()?;
    Ok(VerdictText(rules::check(profile, list)))
}

pub(crate) fn answer_call_line(mut fields: Fields<'_>) -> Result<VerdictText, Unreadable> {
    let list = fields.list()?;
    let word = fields.word()?;
    fields.end()?;
    Ok(VerdictText(requests::answer(list, word)))
}
