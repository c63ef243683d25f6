// Summaries under their C names: each call hands its arguments to `board`, where its comment says what it answers.
ghost use Rattle.board.specs.SummaryPromises.{ArinSummarizes, ArinTakesRequest, ArinAnswersSummary};

use flat::{FlatRequest, FlatTaken};
use lists::Words;
use summaries::{Summarized, Summary};
use verdicts::Verdict;

#[unsafe(no_mangle)]
pub extern "C" fn arin_summarize(list: Words) -> Summarized
    ensures { ArinSummarizes list result }
{
    board::arin_summarize(list)
}

#[unsafe(no_mangle)]
pub extern "C" fn arin_take_request(list: Words, word: u32) -> FlatTaken
    ensures { ArinTakesRequest list word result }
{
    board::arin_take_request(list, word)
}

#[unsafe(no_mangle)]
pub extern "C" fn arin_answer_summary(summary: Summary, request: FlatRequest) -> Verdict
    ensures { ArinAnswersSummary summary request result }
{
    board::arin_answer_summary(summary, request)
}
