// The console's lines on messages: bytes and headers that are typed, and messages and buffers that are told.

#![tactic(auto)]

mod calls;
mod fields;
mod telling;

pub use calls::{read_message_line, take_message_line, write_message_line};
pub use telling::{MessageText, WrittenText};
