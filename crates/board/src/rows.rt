// The lent rows where they lie: judged and summed in one pass, one of them read, one of them written, the first n of them emptied. What
// these do is decided by value, in `ports`. Only the functions here and the calls themselves have a reference to the rows.
ghost use Rattle.std.specs.Prelude.{◌≡◌, ◌≤◌, length, set};
ghost use Rattle.ports.specs.Rows.{row_of};
ghost use Rattle.ports.specs.Standing.{standing_of, place_of};
ghost use Rattle.board.specs.Rows.{emptied_to};

use ports::{NO_ROW, Row, Standing, emptied};
use steps::HalfWatts;

// 30, 32, then row by row, and what the rows hold together. More than eight rows are refused by their count, and none is read.
pub(crate) fn stand(rows: &[Row], capacity: HalfWatts, fresh: bool) -> Standing
    ensures { result ≡ standing_of fresh capacity.0 rows.now }
{
    let mut standing = ports::begin(rows.len(), capacity);
    for (i, row) in rows.iter().enumerate() {
        if !ports::goes_on(standing, i) {
            break;
        }
        standing = ports::take_row(standing, *row, i as u8 + 1, fresh);
    }
    standing
}

// The row of a port. Past the end, as after a refusal, no row is read.
pub(crate) fn row_of(rows: &[Row], standing: Standing, port: u8) -> Row
    ensures { result ≡ row_of rows.now (place_of standing port) }
{
    let at = ports::place_of(standing, port);
    rows.get(at).copied().unwrap_or(NO_ROW)
}

// A place past the end is no row: nothing is written there. A refusal has such a place. With `get_mut` the proof did not close: once its
// borrow is over, nothing is known of the rows.
pub(crate) fn put_row(rows: &mut [Row], at: usize, row: Row)
    ensures { rows.new ≡ set rows.old at row }
{
    if at < rows.len() {
        rows[at] = row;
    }
}

// Empties the first n ports.
pub(crate) fn empty_rows(rows: &mut [Row], n: usize)
    requires { n ≤ length rows.old }
    ensures { rows.new ≡ emptied_to n rows.old }
{
    // By index: with `iter_mut().take(n)` the state of the loop has no rows to say this of (tried).
    for i in 0..n {
        rows[i] = emptied(rows[i]);
    }
}
