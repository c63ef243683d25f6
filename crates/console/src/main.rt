// Every public call from a terminal: one line in, one line out.

#![tactic(auto)]

mod answering;
mod answers;
mod line;
mod list_calls;
mod port_calls;
mod serving;
mod table;

fn main(rt: HostRuntime) {
    serving::serve(&rt);
}
