// The cases of STATEMENT, "Worked by hand", with the table and the examples of the change notice, run on the real library. One line a
// case: "ok" when the library answered what is wanted, "WRONG" when not. The marked cases are proved as well, in `demands`.

#![tactic(auto)]

mod currents;
mod expecting;
mod lists_by_hand;
mod notice_examples;
mod ports;
mod requests_on_l;
mod running;
mod table_10_4;

use std::io;

fn main(rt: HostRuntime) -> io::Result<()> {
    lists_by_hand::run(&rt)?;
    requests_on_l::run(&rt)?;
    table_10_4::run(&rt)?;
    notice_examples::run(&rt)
}
