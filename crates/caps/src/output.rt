// Lines to standard output, through one block of fixed size. It is written when the next line may not fit and when the input
// has ended, so a write is never small before that.
ghost use Rattle.std.specs.Prelude.{◌≡◌, ◌+◌, ◌≤◌, [], ◌++◌, length, take, OnOk};
ghost use Rattle.lines.specs.Text.{line_of};
ghost use Rattle.printed.specs.Printed.{record_line, end_line};
ghost use Rattle.caps.specs.Printing.{Lines, Adds};

use crate::BLOCK;
use crate::failure::Failure;
use crate::records::{Record, profile_of};
use lines::{LONGEST, put_line};
use lists::NO_WORDS;
use std::io::Write;
use std::marker::Model;

#[derive(Drop)]
pub(crate) struct Output<W: Write> {
    writer: W,
    block: [u8; BLOCK],
    next: usize,
}

// Clauses see what is written, and the bytes that wait.
impl<W: Write> Model for Output<W> {
    ghost Value = { Lines };

    ghost view = { λ o. record { written = W.contents o.writer; waiting = take o.next o.block } };

    ghost invariant = { λ o. o.next ≤ 65536 };
}

impl<W: Write> Output<W> {
    pub(crate) fn new(writer: W) -> Self
        ensures { result ≡ record { written = W.contents writer; waiting = [] } }
    {
        Output {
            writer,
            block: [0; BLOCK],
            next: 0,
        }
    }

    // After a write that fails, nothing is said of what is written.
    pub(crate) fn flush(&mut self) -> Result<(), Failure>
        ensures nothing_waits { OnOk result (self.new.waiting ≡ []) }
        ensures same { OnOk result (Adds self.old self.new []) }
    {
        if self.writer.write_all(&self.block[..self.next]).is_err() {
            return Err(Failure::Unwritable);
        }
        self.next = 0;
        Ok(())
    }

    // Room for the longest line.
    pub(crate) fn make_room(&mut self) -> Result<(), Failure>
        ensures room { OnOk result (length self.new.waiting + 71 ≤ 65536) }
        ensures same { OnOk result (Adds self.old self.new []) }
    {
        if LONGEST <= BLOCK - self.next {
            return Ok(());
        }
        self.flush()
    }

    // The words by themselves, as `put_line` takes them: a whole list, copied for the call, takes a fifth
    // more time. Room is asked for here and in the two below, and not made: `make_room` alone writes, so that these
    // say byte by byte what waits.
    fn put(&mut self, number: u8, words: [u32; 7], count: u8)
        requires { length self.old.waiting + 71 ≤ 65536 }
        ensures { self.new ≡ record self.old { waiting = self.old.waiting ++ line_of number words count } }
    {
        self.next = put_line(&mut self.block, self.next, number, words, count);
    }

    pub(crate) fn put_record(&mut self, bytes: &Record)
        requires { length self.old.waiting + 71 ≤ 65536 }
        ensures { self.new ≡ record self.old { waiting = self.old.waiting ++ record_line bytes.now 0 } }
    {
        let listing = rules::build(profile_of(bytes));
        let list = listing.list;
        self.put(listing.verdict.number, list.words, list.count);
    }

    // Behind the last whole record: "Where one to seven bytes are left at the end, they print the line `9 0`".
    pub(crate) fn put_end(&mut self, left: usize)
        requires { length self.old.waiting + 71 ≤ 65536 }
        ensures { self.new ≡ record self.old { waiting = self.old.waiting ++ end_line left } }
    {
        if left == 0 {
            return;
        }
        self.put(verdicts::RECORD_SHORT, NO_WORDS.words, NO_WORDS.count);
    }
}
