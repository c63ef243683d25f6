// What a message is refused for, whether it is read or written: its header, and then its list.
ghost use Rattle.std.specs.Prelude.{◌≡◌};
ghost use Rattle.verdicts.specs.Refusals.{passed_by};
ghost use Rattle.messages.specs.Refusing.{header_refusals, list_refusals};

use crate::{Header, Message, REQUEST, SOURCE_CAPABILITIES};
use lists::Words;
use verdicts::Verdict;

// 42, 41, 53.
pub(crate) fn judge_header(header: Header) -> Result<(), Verdict>
    ensures { result ≡ passed_by (header_refusals header) }
{
    if header.extended != 0 {
        return Err(Verdict::placeless(verdicts::EXTENDED_MESSAGE));
    }
    match header.message_type {
        SOURCE_CAPABILITIES => Ok(()),
        REQUEST if header.count == 1 => Ok(()),
        REQUEST => Err(Verdict::placeless(verdicts::REQUEST_COUNT)),
        _ => Err(Verdict::placeless(verdicts::TYPE_NOT_HANDLED)),
    }
}

// The words of a Source_Capabilities are a list. A Request has none to be judged on.
pub(crate) fn judge_list(message: Message) -> Result<(), Verdict>
    ensures { result ≡ passed_by (list_refusals message) }
{
    let Message { header, words } = message;
    if header.message_type != SOURCE_CAPABILITIES {
        return Ok(());
    }
    let count = header.count;
    lists::shape(Words { words, count }).passed()
}
