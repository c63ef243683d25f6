// The calls that go by way of a summary. Each is handed the fields behind its name.
use crate::telling::SummarizedText;
use lines::{Fields, Unreadable, VerdictText};
use lists::Words;
use summaries::TakenRequest;
use verdicts::Verdict;

pub fn summary_line(mut fields: Fields<'_>) -> Result<SummarizedText, Unreadable> {
    let list = fields.last_list()?;
    Ok(SummarizedText(summaries::summarize(list)))
}

// The answer by way of the summary; a request to a battery object goes to the list.
fn answered_quickly(list: Words, word: u32) -> Result<(), Verdict> {
    let made = summaries::summarize(list);
    made.verdict.passed()?;
    match summaries::take_request(list, word)? {
        TakenRequest::Battery { .. } => requests::answer(list, word).passed(),
        TakenRequest::Quick(asked) => summaries::answer_summary(made.summary, asked).passed(),
    }
}

// A list and a request word.
pub fn quick_line(mut fields: Fields<'_>) -> Result<VerdictText, Unreadable> {
    let list = fields.list()?;
    let word = fields.word()?;
    fields.end()?;
    Ok(VerdictText(Verdict::from(answered_quickly(list, word))))
}
