// The calls on messages. Each is handed the fields behind its name.
use crate::fields::{Bytes, MOST_BYTES, take_bytes, take_header, take_room};
use crate::telling::{MessageText, WrittenText};
use lines::{Fields, Unreadable};
use messages::{Message, MessageReading};

// What the console fills the buffer with before the call.
const FILL: u8 = 0xAA;

// The two calls that read a message differ in how they judge it.
fn reading_line<F: FnOnce(&[u8]) -> MessageReading>(
    mut fields: Fields<'_>,
    read: F,
) -> Result<MessageText, Unreadable>
    requires { F.IsAlwaysCallable read }
{
    let Bytes { bytes, count } = take_bytes(&mut fields)?;
    fields.end()?;
    Ok(MessageText(read(&bytes[..usize::from(count)])))
}

pub fn read_message_line(fields: Fields<'_>) -> Result<MessageText, Unreadable> {
    reading_line(fields, |bytes| messages::read_message(bytes))
}

pub fn take_message_line(fields: Fields<'_>) -> Result<MessageText, Unreadable> {
    reading_line(fields, |bytes| messages::take_message(bytes))
}

// Writes the message, and tells the length and the whole buffer.
pub fn write_message_line(mut fields: Fields<'_>) -> Result<WrittenText, Unreadable> {
    let header = take_header(&mut fields)?;
    let count = take_room(&mut fields)?;
    let words = fields.seven_words()?;
    fields.end()?;
    let mut bytes = [FILL; MOST_BYTES];
    let written = messages::write_message(
        &mut bytes[..usize::from(count)],
        Message { header, words },
    );
    Ok(WrittenText {
        written,
        buffer: Bytes { bytes, count },
    })
}
