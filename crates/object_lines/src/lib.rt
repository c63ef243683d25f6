// The console's lines on lists by themselves: objects that are typed and told, and the calls shape, read and write.

#![tactic(auto)]

mod calls;
mod typed_objects;

pub use calls::{read_line, shape_line, write_line};
pub use typed_objects::{ReadingText, take_counted};
