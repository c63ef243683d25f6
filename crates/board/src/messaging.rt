// Whole messages under their C names: each call hands its bytes to the floor below. A slice is a pointer and a length in C.
ghost use Rattle.board.specs.MessagePromises.{ArinReadsMessage, ArinTakesMessage, ArinWritesMessage};

use messages::{Message, MessageReading, Written};

// The message that these bytes are, all of them. Refusals: 40, 42, 41, 53; then for a Source_Capabilities those of `arin_shape`, with their
// places. The word of a Request is not judged: `arin_answer` and `arin_request` do that.
pub fn arin_read_message(bytes: &[u8]) -> MessageReading
    ensures { ArinReadsMessage bytes.now result }
{
    messages::read_message(bytes)
}

// The same without the list check, so that a list whose shape fails can be looked at. Refusals: 40, 42, 41, 53.
pub fn arin_take_message(bytes: &[u8]) -> MessageReading
    ensures { ArinTakesMessage bytes.now result }
{
    messages::take_message(bytes)
}

// Writes a message into the buffer, from its first byte on, and answers how many bytes that are: `messages::LONGEST_MESSAGE` is enough for
// each. What lies past them stays as it was. Refusals: 51, 42, 41, 53, 52; then for a Source_Capabilities those of `arin_shape`, with their
// places. On a refusal no byte is written.
pub fn arin_write_message(bytes: &mut [u8], message: Message) -> Written
    ensures { ArinWritesMessage bytes.old message result bytes.new }
{
    messages::write_message(bytes, message)
}
