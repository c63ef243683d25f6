// A line of the input, as far as it has come.
ghost use Rattle.std.specs.Prelude.{◌≤◌, ℕ};

use std::marker::Model;

// A line of more bytes cannot be read.
pub(crate) const LONGEST_LINE: usize = 512;

// Of a line that is too long only so much is kept that this can be seen.
const KEPT: usize = LONGEST_LINE + 1;

#[derive(Drop)]
pub(crate) struct Line {
    kept: [u8; KEPT],
    length: usize,
}

// Clauses see how many bytes are kept.
impl Model for Line {
    ghost Value = { ℕ };

    ghost view = { λ l. l.length };

    ghost invariant = { λ l. l.length ≤ 513 };
}

impl Line {
    pub(crate) fn new() -> Line {
        Line {
            kept: [0; KEPT],
            length: 0,
        }
    }

    pub(crate) fn is_empty(&self) -> bool {
        self.length == 0
    }

    pub(crate) fn bytes(&self) -> &[u8] {
        &self.kept[..self.length]
    }

    pub(crate) fn lengthen(&mut self, bytes: &[u8]) {
        let more = bytes.len().min(KEPT - self.length);
        let end = self.length + more;
        self.kept[self.length..end].copy_from_slice(&bytes[..more]);
        self.length = end;
    }

    pub(crate) fn clear(&mut self) {
        self.length = 0;
    }
}
