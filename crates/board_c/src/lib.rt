// The C library: each call of `board` under its C name, with the clauses that it has there. A crate of Rattle calls `board`. `rt lib` here makes one
// archive of them, out/libboard_c.a; tools/c_archive.sh hands it on as libboard.a.

#![tactic(auto)]

mod listing;
mod messaging;
mod sharing;
mod sinking;
mod summing;

pub use listing::{
    arin_answer, arin_build, arin_check, arin_default_profile, arin_read, arin_shape, arin_write,
};
pub use messaging::{arin_read_message, arin_take_message, arin_write_message};
pub use sharing::{
    arin_advertise, arin_attach, arin_detach, arin_remaining, arin_request, arin_set_up,
};
pub use sinking::{arin_sink_check, arin_sink_read, arin_sink_shape, arin_sink_write};
pub use summing::{arin_answer_summary, arin_summarize, arin_take_request};
