// The console's lines on summaries: a summary that is told, and a request that is answered by way of one.

#![tactic(auto)]

mod calls;
mod telling;

pub use calls::{quick_line, summary_line};
pub use telling::SummarizedText;
