// Making a summary: a row for each word.
ghost use Rattle.std.specs.Prelude.{◌≡◌, ◌≤◌};
ghost use Rattle.summaries.specs.Summaries.{rows_to};
ghost use Rattle.summaries.specs.Promises.{Summarizes};

use crate::limits::limits;
use crate::{Summarized, Summary};
use lists::Words;
use objects::Side;

// The limits of so many words, each in its row; zeros past them.
fn limit_words(list: Words, count: u8) -> [[u16; 4]; 7]
    requires { count ≤ 7 }
    ensures { result ≡ rows_to list.words count }
{
    let mut rows = [[0; 4]; 7];
    for (i, w) in list.words[..count as usize].iter().enumerate() {
        if let Some(object) = objects::decode(*w) {
            rows[i] = limits(object);
        }
    }
    rows
}

// The summary of a list. Refusals: those of `lists::shape`, with their places. Of a list that is refused there is no word to read, so its
// summary is all zero.
pub fn summarize(list: Words) -> Summarized
    ensures { Summarizes list result }
{
    let shaped = lists::readable(Side::Source, list);
    let rows = limit_words(list, shaped.count);
    Summarized {
        verdict: shaped.verdict,
        summary: Summary {
            count: shaped.count,
            rows,
        },
    }
}
