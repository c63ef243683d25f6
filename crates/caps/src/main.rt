// The listing program (STATEMENT, "The listing program"): one line for each record of eight bytes on standard input.

#![tactic(auto)]

mod failure;
mod input;
mod listing;
mod output;
mod records;

use input::Input;
use output::Output;
use std::io;

// Of each block, the input's and the output's. std's BufReader and BufWriter take an allocator, and this program has no heap.
pub const BLOCK: usize = 65536;

// The program ends with status 0 whatever happened, so it says here what it could not do.
fn main(rt: HostRuntime) {
    let mut input = Input::new(rt.reader());
    let mut output = Output::new(io::writer(&rt));
    if let Err(failure) = listing::list_all(&mut input, &mut output) {
        let _ = rt.eprint(failure);
    }
}
