// What was answered and is not yet written waits in a block of fixed size, since the console has no heap. It is written when what comes next might
// not fit, and before the console waits for input.
ghost use Rattle.std.specs.Prelude.{◌≡◌, ◌+◌, ◌≤◌, ℕ, length, true};

use lines::LONGEST_WORDS;
use std::fmt;
use std::io::Write;
use std::marker::Model;

const BLOCK: usize = 4096;

// No block ends within a number or within the words of a list. Each has the room of the longest, whatever it takes: a number that of five digits.
const LONGEST_NUMBER: usize = 5;

#[derive(Drop)]
pub(crate) struct Answers<W: Write> {
    writer: W,
    block: [u8; BLOCK],
    // Where the bytes that wait end.
    end: usize,
    // Whether a write failed since that was last asked. What it should have written is lost.
    lost: bool,
}

// Clauses see how many bytes wait.
impl<W: Write> Model for Answers<W> {
    ghost Value = { ℕ };

    ghost view = { λ a. a.end };

    ghost invariant = { λ a. a.end ≤ 4096 };
}

impl<W: Write> Answers<W> {
    pub(crate) fn new(writer: W) -> Self {
        Answers {
            writer,
            block: [0; BLOCK],
            end: 0,
            lost: false,
        }
    }

    // Writes what waits, and tells whether that succeeded.
    pub(crate) fn write_out(&mut self) -> bool
        ensures { self.new ≡ 0 }
    {
        let written = self.writer.write_all(&self.block[..self.end]).is_ok();
        self.end = 0;
        if !written {
            self.lost = true;
        }
        written
    }

    fn put(&mut self, bytes: &[u8])
        requires { self.old + length bytes.now ≤ 4096 }
        ensures { self.new ≡ self.old + length bytes.now }
    {
        let end = self.end + bytes.len();
        self.block[self.end..end].copy_from_slice(bytes);
        self.end = end;
    }

    // Whether anything was lost since this was asked before.
    pub(crate) fn take_lost(&mut self) -> bool {
        let lost = self.lost;
        self.lost = false;
        lost
    }
}

// A number in a text, with the space behind it.
fn is_number(part: &[u8]) -> bool {
    let digits = part.strip_suffix(b" ").unwrap_or(part);
    if digits.is_empty() || LONGEST_NUMBER < digits.len() {
        return false;
    }
    digits.iter().all(|b| b.is_ascii_digit())
}

// Words are told by themselves, each behind a space: no number has eight digits. The text of no words is the only one that is empty.
fn is_words(text: &[u8]) -> bool
    ensures { result ≡ true → length text.now ≤ 63 }
{
    if LONGEST_WORDS < text.len() {
        return false;
    }
    match text.get(..9) {
        Some(first) => first.starts_with(b" ") && !first[1..].contains(&b' '),
        None => text.is_empty(),
    }
}

// How many bytes of a text still go into a block with so much room.
fn fitting(text: &[u8], room: usize) -> usize
    ensures { (result ≤ room) × (result ≤ length text.now) }
{
    let mut fits: usize = 0;
    for part in text.split_inclusive(|b| *b == b' ') {
        if is_number(part) && room.saturating_sub(fits) < LONGEST_NUMBER {
            break;
        }
        fits = fits.saturating_add(part.len());
        if room < fits {
            break;
        }
    }
    fits.min(room).min(text.len())
}

impl<W: Write> fmt::Write for Answers<W> {
    // A write that fails here is no end: `take_lost` tells of it.
    fn write_str(&mut self, text: &str) -> fmt::Result {
        let bytes = text.as_bytes();
        // No text of an answer is longer than the whole block.
        if BLOCK < bytes.len() {
            self.lost = true;
            return Err(fmt::Error);
        }
        let room = BLOCK - self.end;
        if bytes.len() + LONGEST_WORDS <= room {
            self.put(bytes);
            return Ok(());
        }
        if is_words(bytes) {
            if room < LONGEST_WORDS {
                self.write_out();
            }
            self.put(bytes);
            return Ok(());
        }
        let (first, rest) = bytes.split_at(fitting(bytes, room));
        self.put(first);
        if rest.is_empty() {
            return Ok(());
        }
        self.write_out();
        self.put(rest);
        Ok(())
    }
}
