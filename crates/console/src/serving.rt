// From standard input to standard output, a block at a time.
use crate::answering::answer_line;
use crate::answers::Answers;
use crate::line::Line;
use crate::table::Table;
use std::io;
use std::io::{Read, Write};

// What the console has between two blocks of its input.
#[derive(Drop)]
struct Console<W: Write> {
    table: Table,
    // The line so far, where a block ended within it.
    begun: Line,
    answers: Answers<W>,
}

impl<W: Write> Console<W> {
    // Answers a line that lies in one block where it stands, and another once it is whole.
    fn end_line(&mut self, end: &[u8]) {
        if self.begun.is_empty() {
            answer_line(&mut self.answers, &mut self.table, end);
            return;
        }
        self.begun.lengthen(end);
        answer_line(&mut self.answers, &mut self.table, self.begun.bytes());
        self.begun.clear();
    }

    fn take_block(&mut self, block: &[u8]) {
        for part in block.split_inclusive(|b| *b == b'\n') {
            match part.strip_suffix(b"\n") {
                Some(end) => self.end_line(end),
                None => self.begun.lengthen(part),
            }
        }
    }

    // The end of the input ends the last line too, if there are bytes in it.
    fn end_input(&mut self, rt: &impl Eprint) {
        if self.begun.is_empty() {
            return;
        }
        self.end_line(b"");
        self.write_answers(rt);
    }

    // Whether what waits could be written. The program ends with status 0 whatever happened, so it says what it could not do.
    fn write_answers(&mut self, rt: &impl Eprint) -> bool {
        let written = self.answers.write_out();
        if self.answers.take_lost() {
            let _ = rt.eprint("console: standard output cannot be written\n");
        }
        written
    }
}

// Reads to the end of the input. Whoever typed a line sees its answer before the console waits for more. Where nothing can be written any more no
// line is answered.
pub(crate) fn serve(rt: &(impl Print + Eprint + Input)) {
    let mut input = rt.reader();
    let mut console = Console {
        table: Table::new(),
        begun: Line::new(),
        answers: Answers::new(io::writer(rt)),
    };
    // A proved loop has to end, and nothing says that the input does. The turns are more than any run uses up.
    for _ in 0..u64::MAX {
        if !console.write_answers(rt) {
            return;
        }
        let mut block = [0u8; 4096];
        let Ok(length) = input.read(&mut block) else {
            let _ = rt.eprint("console: standard input cannot be read\n");
            break;
        };
        if length == 0 {
            break;
        }
        console.take_block(&block[..length]);
    }
    // What was read before it could be read no further is answered.
    console.end_input(rt);
}
