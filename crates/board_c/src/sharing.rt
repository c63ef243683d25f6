// The sharing calls under their C names: each hands the lent rows to `board`, where its comment says what it answers. A slice is a pointer and a
// length in C.
ghost use Rattle.board.specs.Promises.{SharesSetUp, SharesAttach, SharesAdvertise, SharesRequest, SharesDetach, SharesRemaining};

use lists::Listing;
use ports::{RemainingPower, Row};
use verdicts::Verdict;

#[unsafe(no_mangle)]
pub extern "C" fn arin_set_up(rows: &mut [Row], capacity: u16) -> Verdict
    ensures { SharesSetUp rows.old capacity result rows.new }
{
    board::arin_set_up(rows, capacity)
}

#[unsafe(no_mangle)]
pub extern "C" fn arin_attach(rows: &mut [Row], capacity: u16, port: u8, cable: u16) -> Listing
    ensures { SharesAttach rows.old capacity port cable result rows.new }
{
    board::arin_attach(rows, capacity, port, cable)
}

#[unsafe(no_mangle)]
pub extern "C" fn arin_advertise(rows: &mut [Row], capacity: u16, port: u8) -> Listing
    ensures { SharesAdvertise rows.old capacity port result rows.new }
{
    board::arin_advertise(rows, capacity, port)
}

#[unsafe(no_mangle)]
pub extern "C" fn arin_request(rows: &mut [Row], capacity: u16, port: u8, word: u32) -> Verdict
    ensures { SharesRequest rows.old capacity port word result rows.new }
{
    board::arin_request(rows, capacity, port, word)
}

#[unsafe(no_mangle)]
pub extern "C" fn arin_detach(rows: &mut [Row], capacity: u16, port: u8) -> Verdict
    ensures { SharesDetach rows.old capacity port result rows.new }
{
    board::arin_detach(rows, capacity, port)
}

#[unsafe(no_mangle)]
pub extern "C" fn arin_remaining(rows: &[Row], capacity: u16) -> RemainingPower
    ensures { SharesRemaining rows.now capacity result }
{
    board::arin_remaining(rows, capacity)
}
