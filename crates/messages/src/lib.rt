// Whole messages (docs/STATEMENT.md, "Messages"): the header and the words of a Source_Capabilities or a Request, read from bytes and
// written into them.

#![tactic(auto)]

ghost use Rattle.std.specs.Prelude.{◌≡◌};
ghost use Rattle.messages.specs.Reading.{reading_told};
ghost use Rattle.messages.specs.Writing.{writing_told};

mod headers;
mod judging;
mod low_first;
mod reading;
mod writing;

pub use reading::{read_message, take_message};
use verdicts::{PASSED, Verdict};
pub use writing::write_message;

// The type of Source_Capabilities, whose words are a list. A number, and no enum: C hands a header in, with any type in it.
pub const SOURCE_CAPABILITIES: u8 = 1;

// The type of a Request, whose one word is a request.
pub const REQUEST: u8 = 2;

// No message is longer: two bytes of header and seven words. A buffer of this length holds each.
pub const LONGEST_MESSAGE: usize = 30;

// The header of a message, field by field. Numbers, and no enum or bool: C hands them in, and one that is too wide for its bits is refused.
#[repr(C)]
#[derive(Clone, Copy)]
pub struct Header {
    // Bit 15. 1 is an extended message, which is refused.
    pub extended: u8,
    // Bits 14..12: how many words follow, 0 to 7.
    pub count: u8,
    // Bits 11..9: the message id, 0 to 7.
    pub id: u8,
    // Bit 8: 0 or 1.
    pub power_role: u8,
    // Bits 7..6: 0 to 3.
    pub revision: u8,
    // Bit 5: 0 or 1.
    pub data_role: u8,
    // Bits 4..0: `SOURCE_CAPABILITIES` or `REQUEST`; any other is refused.
    pub message_type: u8,
}

// A header and seven words. As many of them count as the header says; what lies past that is not read. No slice and no Vec: C hands this
// struct over, and there is no heap.
#[repr(C)]
#[derive(Clone, Copy)]
pub struct Message {
    // The header.
    pub header: Header,
    // The words of a list, or the request and six more places.
    pub words: [u32; 7],
}

// What reading a message gives: on a refusal the message is all zero. No Result: C takes this struct, and `ReadMessageRefusals` says what stands
// beside a refusal.
#[repr(C)]
#[derive(Clone, Copy)]
pub struct MessageReading {
    // The first refusal that applies, or success.
    pub verdict: Verdict,
    // The message.
    pub message: Message,
}

// What reading answers, from what went on by `?`.
impl From<Result<Message, Verdict>> for MessageReading {
    ghost from_gives = { λ r m. m ≡ reading_told r };

    fn from(read: Result<Message, Verdict>) -> MessageReading {
        match read {
            Ok(message) => MessageReading {
                verdict: PASSED,
                message,
            },
            Err(verdict) => MessageReading {
                verdict,
                message: NO_MESSAGE,
            },
        }
    }
}

// What writing a message gives: on a refusal the length is 0, and no byte was written. No Result: C takes this struct, and
// `WriteMessageRefusals` says what stands beside a refusal.
#[repr(C)]
#[derive(Clone, Copy)]
pub struct Written {
    // The first refusal that applies, or success.
    pub verdict: Verdict,
    // How many bytes were written, from the first on.
    pub length: u8,
}

// What writing answers, from what went on by `?`.
impl From<Result<u8, Verdict>> for Written {
    ghost from_gives = { λ r w. w ≡ writing_told r };

    fn from(written: Result<u8, Verdict>) -> Written {
        match written {
            Ok(length) => Written {
                verdict: PASSED,
                length,
            },
            Err(verdict) => Written { verdict, length: 0 },
        }
    }
}

// A message with all fields zero, as it is on every refusal.
pub const NO_MESSAGE: Message = Message {
    header: Header {
        extended: 0,
        count: 0,
        id: 0,
        power_role: 0,
        revision: 0,
        data_role: 0,
        message_type: 0,
    },
    words: [0; 7],
};
