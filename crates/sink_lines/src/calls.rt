// The calls on sink lists. Each is handed the fields behind its name.
use crate::typed_objects::{SinkReadingText, take_sink_objects};
use lines::{Fields, ListingText, Unreadable, VerdictText};
use steps::HalfWatts;

pub fn sink_shape_line(mut fields: Fields<'_>) -> Result<VerdictText, Unreadable> {
    let list = fields.last_list()?;
    Ok(VerdictText(sinks::sink_shape(list)))
}

pub fn sink_read_line(mut fields: Fields<'_>) -> Result<SinkReadingText, Unreadable> {
    let list = fields.last_list()?;
    Ok(SinkReadingText(sinks::sink_read(list)))
}

pub fn sink_write_line(mut fields: Fields<'_>) -> Result<ListingText, Unreadable> {
    let list = take_sink_objects(&mut fields)?;
    fields.end()?;
    Ok(ListingText(sinks::sink_write(list)))
}

// `RATING` and a list.
pub fn sink_check_line(mut fields: Fields<'_>) -> Result<VerdictText, Unreadable> {
    let rating = HalfWatts(fields.number()?);
    let list = fields.last_list()?;
    Ok(VerdictText(sinks::sink_check(rating, list)))
}
