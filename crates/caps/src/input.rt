// Standard input through one block of fixed size. A read asks for all the room of the block.
ghost use Rattle.std.specs.Prelude.{◌≡◌, ◌*◌, ◌/◌, ◌≤◌, [], length, take, drop, IfOk};
ghost use Rattle.std.specs.Simd.{first_chunks};
ghost use Rattle.caps.specs.Printing.{Bytes, Reads};

use crate::BLOCK;
use crate::records::{LENGTH, Record};
use std::io;
use std::io::Read;
use std::marker::Model;

#[derive(Drop)]
pub(crate) struct Input<R: Read> {
    source: R,
    block: [u8; BLOCK],
    held: usize,
}

// Clauses see what the source has left, and the bytes that are read and not yet listed.
impl<R: Read> Model for Input<R> {
    ghost Value = { Bytes };

    ghost view = { λ i. record { left = R.remaining i.source; held = take i.held i.block } };

    ghost invariant = { λ i. i.held ≤ 65536 };
}

impl<R: Read> Input<R> {
    pub(crate) fn new(source: R) -> Self
        ensures { result ≡ record { left = R.remaining source; held = [] } }
    {
        Input {
            source,
            block: [0; BLOCK],
            held: 0,
        }
    }

    // One read behind the bytes that are held: how many came.
    pub(crate) fn read(&mut self) -> io::Result<usize>
        ensures { IfOk result (λ n. Reads self.old self.new n) }
    {
        let got = self.source.read(&mut self.block[self.held..])?;
        self.held += got;
        Ok(got)
    }

    // The whole records, and the bytes of an unfinished one, wherever a read cut it.
    pub(crate) fn records(&self) -> (&[Record], &[u8])
        ensures count { length result.0.now ≡ length self.now.held / 8 }
        ensures whole { result.0.now ≡ first_chunks 8 (length self.now.held / 8) self.now.held }
        ensures unfinished { result.1.now ≡ drop (length self.now.held / 8 * 8) self.now.held }
    {
        self.block[..self.held].as_chunks()
    }

    // The bytes of an unfinished record go to the start of the block.
    pub(crate) fn keep_unfinished(&mut self)
        ensures { self.new ≡ record self.old { held = drop (length self.old.held / 8 * 8) self.old.held } }
    {
        let from = self.held / LENGTH * LENGTH;
        self.block.copy_within(from..self.held, 0);
        self.held -= from;
    }
}
