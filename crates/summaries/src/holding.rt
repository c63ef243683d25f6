// What is taken out of a summary.
ghost use Rattle.std.specs.Prelude.{◌≡◌, [], ◌<◌, get_or};
ghost use Rattle.summaries.specs.Promises.{HasRows};

use crate::Summary;

// The seven rows of a summary. Nothing is refused: rows past the count are given as they stand.
pub fn rows_of(summary: Summary) -> [[u16; 4]; 7]
    ensures { HasRows summary result }
{
    summary.rows
}

// One of the seven rows: to answer reads no more (docs/DECISIONS.md, "Why `row_at` beside `rows_of`?").
pub(crate) fn row_at(summary: Summary, at: usize) -> [u16; 4]
    requires { at < 7 }
    ensures { result ≡ get_or summary.rows at [] }
{
    summary.rows[at]
}
