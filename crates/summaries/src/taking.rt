// A request word decoded for the kind of the object at its position. Only the count and the named word of the list are looked at.
ghost use Rattle.std.specs.Prelude.{◌≡◌, Ok};
ghost use Rattle.verdicts.specs.Refusals.{first_of, err};
ghost use Rattle.lists.specs.Reading.{object_of};
ghost use Rattle.requests.specs.Answering.{named_by};
ghost use Rattle.summaries.specs.Taking.{quick_request_of, quick_of, decoding_refusals};
ghost use Rattle.summaries.specs.Promises.{TakesRequest};

use crate::{BatteryRequest, QuickAsked, QuickRequest, TakenRequest};
use lists::Words;
use objects::Object;
use requests::{Asked, Request};
use verdicts::Verdict;

// The same request, where a summary can answer it.
impl TryFrom<Request> for QuickRequest {
    type Error = BatteryRequest;

    ghost try_from_gives = { λ request result. result ≡ quick_request_of request };

    fn try_from(request: Request) -> Result<QuickRequest, BatteryRequest> {
        match request {
            Request::Fixed { operating, maximum } => Ok(QuickRequest::Fixed { operating, maximum }),
            Request::Battery { .. } => Err(BatteryRequest),
            Request::Variable { operating, maximum } => Ok(QuickRequest::Variable {
                operating,
                maximum,
            }),
            Request::Pps { volts, current } => Ok(QuickRequest::Pps { volts, current }),
            Request::Avs { volts, current } => Ok(QuickRequest::Avs { volts, current }),
        }
    }
}

// Whom a request is for: a summary, or the list.
impl From<Asked> for TakenRequest {
    ghost from_gives = { λ asked result. result ≡ quick_of asked };

    fn from(asked: Asked) -> TakenRequest {
        let Asked {
            position,
            mismatch,
            request,
        } = asked;
        match QuickRequest::try_from(request) {
            Ok(request) => TakenRequest::Quick(QuickAsked {
                position,
                mismatch,
                request,
            }),
            Err(BatteryRequest) => TakenRequest::Battery { position, mismatch },
        }
    }
}

// The object at the position that a request word names.
fn named(list: Words, word: u32) -> Result<Object, Verdict>
    ensures { result ≡ first_of err (decoding_refusals list word) (Ok (object_of (named_by list word))) }
{
    if lists::bad_count(list.count) {
        return Err(Verdict::placeless(verdicts::COUNT));
    }
    let position = requests::position(word);
    if position < 1 || list.count < position {
        return Err(Verdict::placeless(verdicts::POSITION));
    }
    let d = objects::decode(list.words[(position - 1) as usize]);
    d.ok_or(Verdict::at(verdicts::KIND_NOT_ALLOWED, position))
}

// A request word decoded for the kind of the object at its position, in a list that is not judged: its shape is `summarize`'s to say.
// Reserved bits of the word are ignored. Refusals: 10, 20; 12 (the word).
pub fn take_request(list: Words, word: u32) -> Result<TakenRequest, Verdict>
    ensures { TakesRequest list word result }
{
    let object = named(list, word)?;
    Ok(TakenRequest::from(requests::take_apart(object, word)))
}
