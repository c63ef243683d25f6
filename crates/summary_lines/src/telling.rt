// What is told of a summary.
use lines::{NumbersText, VerdictText};
use std::fmt;
use summaries::Summarized;

// The verdict, the count, and the four limits of all seven rows, those past the count too, in the order in which they stand.
#[derive(Clone, Copy)]
pub struct SummarizedText(pub Summarized);

impl fmt::Display for SummarizedText {
    fn fmt<W: fmt::Write>(&self, f: &mut fmt::Formatter<W>) -> fmt::Result {
        let Summarized { verdict, summary } = self.0;
        let count = [u16::from(summary.count)];
        write!(f, "{}{}", VerdictText(verdict), NumbersText(&count))?;
        for row in summaries::rows_of(summary) {
            write!(f, "{}", NumbersText(&row))?;
        }
        Ok(())
    }
}
