// The sharing calls over the lent rows (docs/STATEMENT.md, "Ports that share"). Rows, capacity and port are C's parameters. What a call does is decided by value, in `ports`.
ghost use Rattle.std.specs.Prelude.{◌≡◌, false, set};
ghost use Rattle.ports.specs.Rows.{row_of};
ghost use Rattle.ports.specs.Standing.{standing_of, place_of};
ghost use Rattle.board.specs.Promises.{SharesSetUp, SharesAttach, SharesAdvertise, SharesRequest, SharesDetach, SharesRemaining};

use crate::rows::{empty_rows, put_row, row_of, stand};
use lists::Listing;
use ports::{Change, RemainingPower, Row, Standing};
use steps::{HalfWatts, Ma10};
use verdicts::Verdict;

// A call on one port: judges the rows, decides by how they stand and by the port's own row, and writes the row that comes of it.
fn share<F: FnOnce(Standing, Row) -> Change>(
    rows: &mut [Row],
    capacity: HalfWatts,
    port: u8,
    decide: F,
) -> Change
    requires { F.IsAlwaysCallable decide }
    ensures decided { F.post decide (standing_of false capacity.0 rows.old) (row_of rows.old (place_of (standing_of false capacity.0 rows.old) port)) result }
    ensures written { rows.new ≡ set rows.old result.at result.row }
{
    let standing = stand(&*rows, capacity, ports::SOUND);
    let row = row_of(&*rows, standing, port);
    let change = decide(standing, row);
    put_row(rows, change.at, change.row);
    change
}

// Empties every port: cable 0, present power 0, 15 half watts held. Of the rows as lent only `max` and `pps` matter. The capacity is in half
// watts, from 15 for each row to 1600, and the same in each call. Refusals: 30, 32, then row by row 31, 4 (the row).
pub fn arin_set_up(rows: &mut [Row], capacity: u16) -> Verdict
    ensures { SharesSetUp rows.old capacity result rows.new }
{
    let standing = stand(&*rows, HalfWatts(capacity), ports::FRESH);
    let n = ports::all_or_none(standing);
    empty_rows(rows, n);
    standing.fault
}

// A cable came to an empty port, with what it carries in 10 mA, 100 to 500; port n is `rows[n - 1]`. Sets its present power to the smaller of
// its maximum and what the other ports leave, and answers the list to send. Refusals: 30, 32, 37 (the first row at fault, or 0), 33, 3, 34 (the row).
pub fn arin_attach(rows: &mut [Row], capacity: u16, port: u8, cable: u16) -> Listing
    ensures { SharesAttach rows.old capacity port cable result rows.new }
{
    let capacity = HalfWatts(capacity);
    let change = share(rows, capacity, port, |standing, row| {
        ports::attach(standing, row, capacity, port, Ma10(cable))
    });
    ports::offer(change)
}

// The same again for an attached port: its present power anew, and the list to send. What it holds stays. Refusals: 30, 32, 37 (the
// first row at fault, or 0), 33, 35 (the row).
pub fn arin_advertise(rows: &mut [Row], capacity: u16, port: u8) -> Listing
    ensures { SharesAdvertise rows.old capacity port result rows.new }
{
    let capacity = HalfWatts(capacity);
    let change = share(rows, capacity, port, |standing, row| {
        ports::advertise(standing, row, capacity, port)
    });
    ports::offer(change)
}

// Judges a request word on the port's latest list. On success the port holds the power asked for: voltage times operating current, rounded
// up to a half watt, at least 15 half watts, and for PPS at most its present power. On a refusal it holds what it held. 36 is given exactly
// when the list allows the request and the other ports leave less than it would hold. Reserved bits of the word are ignored, in what is
// held too. Refusals: 30, 32, 37 (the first row at fault, or 0), 33, 35 (the row), then 20, 23, 22, 24, 25, then 36 (the row).
pub fn arin_request(rows: &mut [Row], capacity: u16, port: u8, word: u32) -> Verdict
    ensures { SharesRequest rows.old capacity port word result rows.new }
{
    let capacity = HalfWatts(capacity);
    let change = share(rows, capacity, port, |standing, row| {
        ports::request(standing, row, capacity, port, word)
    });
    change.answer
}

// The cable of an attached port is gone: empties the port. Refusals: 30, 32, 37 (the first row at fault, or 0), 33, 35 (the row).
pub fn arin_detach(rows: &mut [Row], capacity: u16, port: u8) -> Verdict
    ensures { SharesDetach rows.old capacity port result rows.new }
{
    let capacity = HalfWatts(capacity);
    let change = share(
        rows,
        capacity,
        port,
        |standing, row| ports::detach(standing, row, capacity, port),
    );
    change.answer
}

// What no port holds. An empty port holds 15 half watts. Refusals: 30, 32, 37 (the first row at fault, or 0).
pub fn arin_remaining(rows: &[Row], capacity: u16) -> RemainingPower
    ensures { SharesRemaining rows.now capacity result }
{
    let standing = stand(rows, HalfWatts(capacity), ports::SOUND);
    ports::remaining(standing, HalfWatts(capacity))
}
