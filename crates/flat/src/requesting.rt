// Decoded requests, both ways: out of a request word, and in to a summary.
ghost use Rattle.std.specs.Prelude.{◌≡◌};
ghost use Rattle.flat.specs.Requesting.{bit_of, no_figures, flat_request_of, flat_battery_of, flat_taken_told, flat_taken_of, raised_request_of};
ghost use Rattle.flat.specs.Promises.{FlatTakesRequest, FlatAnswersSummary};

use crate::{
    FlatRequest, FlatTaken, KIND_AVS, KIND_BATTERY, KIND_FIXED, KIND_PPS, KIND_VARIABLE, NO_REQUEST,
};
use lists::Words;
use summaries::{QuickAsked, QuickRequest, Summary, TakenRequest};
use verdicts::{PASSED, Verdict};

// The position and bit 26, which a request of each kind has.
fn addressed(position: u8, mismatch: bool) -> FlatRequest
    ensures { result ≡ no_figures 0 position (bit_of mismatch) }
{
    FlatRequest {
        position,
        mismatch: u8::from(mismatch),
        ..NO_REQUEST
    }
}

// A decoded request as a flat one: the fields of its kind, and all others zero.
impl From<QuickAsked> for FlatRequest {
    ghost from_gives = { λ a x. x ≡ flat_request_of a };

    fn from(asked: QuickAsked) -> FlatRequest {
        let flat = addressed(asked.position, asked.mismatch);
        match asked.request {
            QuickRequest::Fixed { operating, maximum } => FlatRequest {
                kind: KIND_FIXED,
                operating,
                maximum,
                ..flat
            },
            QuickRequest::Variable { operating, maximum } => FlatRequest {
                kind: KIND_VARIABLE,
                operating,
                maximum,
                ..flat
            },
            QuickRequest::Pps { volts, current } => FlatRequest {
                kind: KIND_PPS,
                volts20: volts,
                current50: current,
                ..flat
            },
            QuickRequest::Avs { volts, current } => FlatRequest {
                kind: KIND_AVS,
                volts25: volts,
                current50: current,
                ..flat
            },
        }
    }
}

fn flatten_battery(position: u8, mismatch: bool) -> FlatRequest
    ensures { result ≡ flat_battery_of position mismatch }
{
    FlatRequest {
        kind: KIND_BATTERY,
        ..addressed(position, mismatch)
    }
}

// What decoding answers, from what went on by `?`: on a refusal no request.
impl From<Result<FlatRequest, Verdict>> for FlatTaken {
    ghost from_gives = { λ r t. t ≡ flat_taken_told r };

    fn from(taken: Result<FlatRequest, Verdict>) -> FlatTaken {
        match taken {
            Ok(request) => FlatTaken {
                verdict: PASSED,
                request,
            },
            Err(verdict) => FlatTaken {
                verdict,
                request: NO_REQUEST,
            },
        }
    }
}

fn taken(list: Words, word: u32) -> Result<FlatRequest, Verdict>
    ensures { flat_taken_told result ≡ flat_taken_of list word }
{
    match summaries::take_request(list, word)? {
        TakenRequest::Battery { position, mismatch } => Ok(flatten_battery(position, mismatch)),
        TakenRequest::Quick(asked) => Ok(FlatRequest::from(asked)),
    }
}

// A request word decoded for the kind of the object at its position, as `summaries::take_request` does, in a list that is not judged.
// Refusals: 10, 20; 12 (the word).
pub fn flat_take_request(list: Words, word: u32) -> FlatTaken
    ensures { FlatTakesRequest list word result }
{
    FlatTaken::from(taken(list, word))
}

// The decoded request of a flat one, where its kind has one; the fields that its kind does not have are not read.
fn raise_request(flat: FlatRequest) -> Option<QuickAsked>
    ensures { result ≡ raised_request_of flat }
{
    let request = match flat.kind {
        KIND_FIXED => QuickRequest::Fixed {
            operating: flat.operating,
            maximum: flat.maximum,
        },
        KIND_VARIABLE => QuickRequest::Variable {
            operating: flat.operating,
            maximum: flat.maximum,
        },
        KIND_PPS => QuickRequest::Pps {
            volts: flat.volts20,
            current: flat.current50,
        },
        KIND_AVS => QuickRequest::Avs {
            volts: flat.volts25,
            current: flat.current50,
        },
        _ => return None,
    };
    Some(QuickAsked {
        position: flat.position,
        mismatch: flat.mismatch != 0,
        request,
    })
}

// Whether a decoded request may be accepted, by a summary, as `summaries::answer_summary` says. Refusals: 12 where the kind has no decoded
// request; then 10, 20, 23, 22, 24, 25; all with place 0.
pub fn flat_answer_summary(summary: Summary, request: FlatRequest) -> Verdict
    ensures { FlatAnswersSummary summary request result }
{
    let Some(asked) = raise_request(request) else {
        return Verdict::placeless(verdicts::KIND_NOT_ALLOWED);
    };
    summaries::answer_summary(summary, asked)
}
