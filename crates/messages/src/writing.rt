// Writing: from a message to bytes, in a buffer that is lent.
ghost use Rattle.std.specs.Prelude.{◌≡◌, true, ◌≤◌, length, Ok};
ghost use Rattle.verdicts.specs.Refusals.{first_of, err};
ghost use Rattle.objects.specs.Layout.{all_fit};
ghost use Rattle.messages.specs.Headers.{fields_of, length_of};
ghost use Rattle.messages.specs.Writing.{writing_refusals, laid_over, buffer_after};
ghost use Rattle.messages.specs.Promises.{WritesMessage};

use crate::headers::{half_of_header, too_wide};
use crate::judging::{judge_header, judge_list};
use crate::low_first::{put_half, put_word};
use crate::{Message, Written};
use verdicts::Verdict;

// The header and as many words as it says, from the first byte on.
fn put_message(bytes: &mut [u8], message: Message)
    requires { (all_fit (fields_of message.header) ≡ true) × (length_of message.header ≤ length bytes.old) }
    ensures { bytes.new ≡ laid_over bytes.old message }
{
    let header = message.header;
    let half = half_of_header(header);
    put_half(&mut bytes[0..2], half);
    // By index: of chunks that are lent for writing, a proof knows afterwards only how many bytes they have.
    for i in 0..header.count as usize {
        let at = 2 + 4 * i;
        put_word(&mut bytes[at..at + 4], message.words[i]);
    }
}

// How many bytes a message takes of a buffer that has so many, or the first of 51, 42, 41, 53, 52 and those of its list.
fn length_in(room: usize, message: Message) -> Result<u8, Verdict>
    ensures { result ≡ first_of err (writing_refusals room message) (Ok (length_of message.header)) }
{
    let header = message.header;
    if too_wide(header) {
        return Err(Verdict::placeless(verdicts::HEADER_FIELD_TOO_WIDE));
    }
    judge_header(header)?;
    let length = 2 + 4 * header.count;
    if room < (length as usize) {
        return Err(Verdict::placeless(verdicts::BUFFER_TOO_SHORT));
    }
    judge_list(message)?;
    Ok(length)
}

// The length, once the bytes are there. On a refusal none was written.
fn written(bytes: &mut [u8], message: Message) -> Result<u8, Verdict>
    ensures answer { result ≡ first_of err (writing_refusals (length bytes.old) message) (Ok (length_of message.header)) }
    ensures buffer { bytes.new ≡ buffer_after bytes.old message }
{
    let length = length_in(bytes.len(), message)?;
    put_message(bytes, message);
    Ok(length)
}

// The bytes of a message, from the first byte of the buffer on; what lies past them stays as it was. Refusals: 51, 42, 41, 53, 52, with
// place 0; then for a Source_Capabilities those of `lists::shape`, with their places. On a refusal no byte is written.
#[tactic(auto, using(crate::proofs::Writings::written_told))]
pub fn write_message(bytes: &mut [u8], message: Message) -> Written
    ensures { WritesMessage bytes.old message result bytes.new }
{
    Written::from(written(bytes, message))
}
