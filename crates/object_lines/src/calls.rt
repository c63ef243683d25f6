// The calls on lists by themselves. Each is handed the fields behind its name.
use crate::typed_objects::{ReadingText, take_objects};
use lines::{Fields, ListingText, Unreadable, VerdictText};

pub fn shape_line(mut fields: Fields<'_>) -> Result<VerdictText, Unreadable> {
    let list = fields.last_list()?;
    Ok(VerdictText(lists::shape(list)))
}

pub fn read_line(mut fields: Fields<'_>) -> Result<ReadingText, Unreadable> {
    let list = fields.last_list()?;
    Ok(ReadingText(lists::read(list)))
}

pub fn write_line(mut fields: Fields<'_>) -> Result<ListingText, Unreadable> {
    let list = take_objects(&mut fields)?;
    fields.end()?;
    Ok(ListingText(lists::write(list)))
}
