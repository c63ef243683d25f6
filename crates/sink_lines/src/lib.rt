// The console's lines on sink lists: sink objects that are typed and told, and the four calls.

#![tactic(auto)]

mod calls;
mod typed_objects;

pub use calls::{sink_check_line, sink_read_line, sink_shape_line, sink_write_line};
pub use typed_objects::SinkReadingText;
