// Which call a line asks for.
use crate::answers::Answers;
use crate::line::LONGEST_LINE;
use crate::list_calls::{answer_call_line, build_line, check_line, default_line};
use crate::port_calls::{
    advertise_line, attach_line, detach_line, remaining_line, request_line, set_up_line,
};
use crate::table::{Table, rows_line, table_line};
use lines::{Fields, Unreadable};
use message_lines::{read_message_line, take_message_line, write_message_line};
use object_lines::{read_line, shape_line, write_line};
use sink_lines::{sink_check_line, sink_read_line, sink_shape_line, sink_write_line};
use std::fmt::{Display, Write as _};
use std::io::Write;
use summary_lines::{quick_line, summary_line};

fn tell<W: Write, A: Display + Drop>(answers: &mut Answers<W>, answer: A) {
    // What is told is ASCII and shorter than the block in which it waits, so this is no error.
    let _ = writeln!(answers, "{answer}");
}

fn text_of(line: &[u8]) -> Result<&str, Unreadable> {
    if LONGEST_LINE < line.len() {
        return Err(Unreadable);
    }
    str::from_utf8(line).map_err(|_| Unreadable)
}

fn answer_call<W: Write>(
    answers: &mut Answers<W>,
    table: &mut Table,
    line: &[u8],
) -> Result<(), Unreadable> {
    // Nothing is asked.
    if line.is_empty() {
        return Err(Unreadable);
    }
    let (name, fields) = Fields::of(text_of(line)?);
    match name {
        "setup" => tell(answers, set_up_line(table.rows_mut(), fields)?),
        "attach" => tell(answers, attach_line(table.rows_mut(), fields)?),
        "advertise" => tell(answers, advertise_line(table.rows_mut(), fields)?),
        "request" => tell(answers, request_line(table.rows_mut(), fields)?),
        "detach" => tell(answers, detach_line(table.rows_mut(), fields)?),
        "remaining" => tell(answers, remaining_line(table.rows(), fields)?),
        "rows" => tell(answers, rows_line(table, fields)?),
        "table" => tell(answers, table_line(table, fields)?),
        "default" => tell(answers, default_line(fields)?),
        "build" => tell(answers, build_line(fields)?),
        "check" => tell(answers, check_line(fields)?),
        "answer" => tell(answers, answer_call_line(fields)?),
        "shape" => tell(answers, shape_line(fields)?),
        "read" => tell(answers, read_line(fields)?),
        "write" => tell(answers, write_line(fields)?),
        "summary" => tell(answers, summary_line(fields)?),
        "quick" => tell(answers, quick_line(fields)?),
        "sinkshape" => tell(answers, sink_shape_line(fields)?),
        "sinkread" => tell(answers, sink_read_line(fields)?),
        "sinkwrite" => tell(answers, sink_write_line(fields)?),
        "sinkcheck" => tell(answers, sink_check_line(fields)?),
        "readmsg" => tell(answers, read_message_line(fields)?),
        "takemsg" => tell(answers, take_message_line(fields)?),
        "writemsg" => tell(answers, write_message_line(fields)?),
        _ => return Err(Unreadable),
    }
    Ok(())
}

// The one line that a line gets.
pub(crate) fn answer_line<W: Write>(answers: &mut Answers<W>, table: &mut Table, line: &[u8]) {
    if answer_call(answers, table, line).is_err() {
        let _ = answers.write_str("?\n");
    }
}
