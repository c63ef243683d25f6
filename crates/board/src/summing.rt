// Summaries under their C names: each call hands its arguments to the floor below. A decoded request is flat, since C has no enum with data.
ghost use Rattle.board.specs.SummaryPromises.{ArinSummarizes, ArinTakesRequest, ArinAnswersSummary};

use flat::{FlatRequest, FlatTaken};
use lists::Words;
use summaries::{Summarized, Summary};
use verdicts::Verdict;

// The summary of a list, to be kept beside it: its count, and for each place the lowest and the highest voltage in mV and the greatest current
// in mA below and above 15.0 V. Refusals: those of `arin_shape`.
pub fn arin_summarize(list: Words) -> Summarized
    ensures { ArinSummarizes list result }
{
    summaries::summarize(list)
}

// A request word decoded for the kind of the object at its position. Only the count and the named word of the list are looked at; whether it
// has its shape is not judged. Reserved bits of the request word are ignored. A request to a battery object is for `arin_answer`. Refusals: 10,
// 20; 12 (the word).
pub fn arin_take_request(list: Words, word: u32) -> FlatTaken
    ensures { ArinTakesRequest list word result }
{
    flat::flat_take_request(list, word)
}

// Whether a decoded request may be accepted, from the summary of the list that was advertised: what `arin_answer` says of that list and the
// request word. A summary of other numbers is taken as it stands. Refusals: 12 where the kind is none that a summary answers; 10 where the count
// is above 7; 20, 23, 22, 24, 25; all with place 0.
pub fn arin_answer_summary(summary: Summary, request: FlatRequest) -> Verdict
    ensures { ArinAnswersSummary summary request result }
{
    flat::flat_answer_summary(summary, request)
}
