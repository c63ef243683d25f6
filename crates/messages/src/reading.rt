// Reading: from bytes to a message.
ghost use Rattle.std.specs.Prelude.{◌≡◌, ◌≤◌, length, Ok, IfOk};
ghost use Rattle.verdicts.specs.Refusals.{first_of, err};
ghost use Rattle.messages.specs.Headers.{length_of};
ghost use Rattle.messages.specs.Reading.{words_in, header_in, message_in, taking_refusals, reading_refusals};
ghost use Rattle.messages.specs.Promises.{TakesMessage, ReadsMessage};

use crate::headers::header_of;
use crate::judging::{judge_header, judge_list};
use crate::low_first::{half_of, word_of};
use crate::{Header, Message, MessageReading};
use verdicts::{PASSED, Verdict};

// The header and the words behind it. Each word is put down where it will stand: an array of their own would be copied once more, which
// small boards feel.
fn message_in(bytes: &[u8], header: Header) -> Message
    requires { (header.count ≤ 7) × (length bytes.now ≡ length_of header) }
    ensures { result ≡ record { header = header; words = words_in bytes.now header.count } }
{
    let mut message = Message {
        header,
        words: [0; 7],
    };
    for (i, four) in bytes[2..].chunks_exact(4).enumerate() {
        message.words[i] = word_of(four);
    }
    message
}

// The header of a message that is taken apart, or the first of 40, 42, 41, 53. Without the words: within a result they would be copied
// once more.
fn header_taken(bytes: &[u8]) -> Result<Header, Verdict>
    ensures value { result ≡ first_of err (taking_refusals bytes.now) (Ok (header_in bytes.now)) }
    ensures fits { IfOk result (λ header. (header.count ≤ 7) × (length bytes.now ≡ length_of header)) }
{
    let half = half_of(bytes).ok_or(Verdict::placeless(verdicts::MESSAGE_LENGTH))?;
    let header = header_of(half);
    if bytes.len() != 2 + 4 * header.count as usize {
        return Err(Verdict::placeless(verdicts::MESSAGE_LENGTH));
    }
    judge_header(header)?;
    Ok(header)
}

// A message taken apart, whether its list has its shape or not. Refusals: 40, 42, 41, 53, with place 0.
pub fn take_message(bytes: &[u8]) -> MessageReading
    ensures { TakesMessage bytes.now result }
{
    match header_taken(bytes) {
        Ok(header) => MessageReading {
            verdict: PASSED,
            message: message_in(bytes, header),
        },
        Err(verdict) => MessageReading::from(Err(verdict)),
    }
}

// A message taken apart, for `?`.
fn taken_apart(bytes: &[u8]) -> Result<Message, Verdict>
    ensures { result ≡ first_of err (taking_refusals bytes.now) (Ok (message_in bytes.now)) }
{
    let header = header_taken(bytes)?;
    Ok(message_in(bytes, header))
}

// A message whose list is judged too.
fn judged_whole(bytes: &[u8]) -> Result<Message, Verdict>
    ensures { result ≡ first_of err (reading_refusals bytes.now) (Ok (message_in bytes.now)) }
{
    let message = taken_apart(bytes)?;
    judge_list(message)?;
    Ok(message)
}

// A message whose list, where it is a Source_Capabilities, has its shape. Refusals: 40, 42, 41, 53, with place 0; then for a
// Source_Capabilities those of `lists::shape`, with their places.
#[tactic(auto, using(crate::proofs::Readings::read_told))]
pub fn read_message(bytes: &[u8]) -> MessageReading
    ensures { ReadsMessage bytes.now result }
{
    MessageReading::from(judged_whole(bytes))
}
