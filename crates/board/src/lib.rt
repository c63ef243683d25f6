// What firmware calls: the sharing calls over lent rows (docs/STATEMENT.md, "Ports that share"), every call on lists, those of
// sinks too, summaries, and whole messages, each under a C name that begins with `arin_`. `board_c` exports them to C.

#![tactic(auto)]

mod listing;
mod messaging;
mod rows;
mod sharing;
mod sinking;
mod summing;

pub use listing::{
    arin_answer, arin_build, arin_check, arin_default_profile, arin_read, arin_shape, arin_write,
};
pub use messaging::{arin_read_message, arin_take_message, arin_write_message};
pub use sharing::{
    arin_advertise, arin_attach, arin_detach, arin_remaining, arin_request, arin_set_up,
};
pub use sinking::{arin_sink_check, arin_sink_read, arin_sink_shape, arin_sink_write};
pub use summing::{arin_answer_summary, arin_summarize, arin_take_request};
