// Whole messages under their C names: each call hands its bytes to `board`, where its comment says what it answers. A slice is a pointer and a
// length in C.
ghost use Rattle.board.specs.MessagePromises.{ArinReadsMessage, ArinTakesMessage, ArinWritesMessage};

use messages::{Message, MessageReading, Written};

#[unsafe(no_mangle)]
pub extern "C" fn arin_read_message(bytes: &[u8]) -> MessageReading
    ensures { ArinReadsMessage bytes.now result }
{
    board::arin_read_message(bytes)
}

#[unsafe(no_mangle)]
pub extern "C" fn arin_take_message(bytes: &[u8]) -> MessageReading
    ensures { ArinTakesMessage bytes.now result }
{
    board::arin_take_message(bytes)
}

#[unsafe(no_mangle)]
pub extern "C" fn arin_write_message(bytes: &mut [u8], message: Message) -> Written
    ensures { ArinWritesMessage bytes.old message result bytes.new }
{
    board::arin_write_message(bytes, message)
}
