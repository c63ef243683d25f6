// The line of a listing as `caps` prints it, and the lines of the console: the fields that are typed, and the answers that are told.

#![tactic(auto)]

mod fields;
mod printing;
mod text;

pub use fields::{Fields, Unreadable};
pub use printing::{ListingText, MOST_NUMBERS, NumbersText, VerdictText, WordsText};
pub use text::{LONGEST, LONGEST_WORDS, put_line};
