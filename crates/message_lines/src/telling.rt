// What is told of a message and of a buffer.
ghost use Rattle.std.specs.Prelude.{◌++◌, Some};
ghost use Rattle.lines.specs.Numbers.{verdict_text};
ghost use Rattle.message_lines.specs.Telling.{header_text, message_text};

use crate::fields::{Bytes, MOST_BYTES};
use lines::{VerdictText, WordsText};
use messages::{Header, Message, MessageReading, Written};
use std::fmt;

// A space before each of the header's seven numbers.
#[derive(Clone, Copy)]
struct HeaderText(Header);

impl fmt::Display for HeaderText {
    ghost output = { λ h. Some (header_text h.0) };

    fn fmt<W: fmt::Write>(&self, f: &mut fmt::Formatter<W>) -> fmt::Result {
        let Header {
            extended,
            count,
            id,
            power_role,
            revision,
            data_role,
            message_type,
        } = self.0;
        write!(
            f,
            " {extended} {count} {id} {power_role} {revision} {data_role} {message_type}"
        )
    }
}

// The verdict, the header's seven numbers, and as many words as it says.
#[derive(Clone, Copy)]
pub struct MessageText(pub MessageReading);

impl fmt::Display for MessageText {
    ghost output = { λ r. Some (verdict_text r.0.verdict.number r.0.verdict.place ++ message_text r.0.message) };

    fn fmt<W: fmt::Write>(&self, f: &mut fmt::Formatter<W>) -> fmt::Result {
        let MessageReading { verdict, message } = self.0;
        let Message { header, words } = message;
        let count = header.count;
        write!(
            f,
            "{}{}{}",
            VerdictText(verdict),
            HeaderText(header),
            WordsText { words, count }
        )
    }
}

// The hex digits are capitals.
fn hex_digit(value: u8) -> u8 {
    b"0123456789ABCDEF"[usize::from(value % 16)]
}

// The verdict, the length, and the whole buffer as it is after the call: two digits for each byte, or `-` where there is none.
#[derive(Clone, Copy)]
pub struct WrittenText {
    pub(crate) written: Written,
    pub(crate) buffer: Bytes,
}

impl fmt::Display for WrittenText {
    fn fmt<W: fmt::Write>(&self, f: &mut fmt::Formatter<W>) -> fmt::Result {
        let Written { verdict, length } = self.written;
        write!(f, "{} {length} ", VerdictText(verdict))?;
        let Bytes { bytes, count } = self.buffer;
        if count == 0 {
            return write!(f, "-");
        }
        // All in one write: with `{:02X}` for each byte the line took up to twice the time.
        let mut text = [0; 2 * MOST_BYTES];
        let (pairs, _) = text.as_chunks_mut::<2>();
        for (pair, byte) in pairs.iter_mut().zip(&bytes) {
            *pair = [hex_digit(byte / 16), hex_digit(byte % 16)];
        }
        let told = text.get(..2 * usize::from(count)).unwrap_or(&text);
        f.write_str(str::from_utf8(told).map_err(|_| fmt::Error)?)
    }
}
