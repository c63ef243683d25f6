// Standard input to standard output.
ghost use Rattle.std.specs.Prelude.{◌≡◌, ◌*◌, ◌/◌, ◌<◌, length, drop, OnOk};
ghost use Rattle.std.specs.Io.KnownBytes.{Appends};
ghost use Rattle.printed.specs.Printed.{record_lines, end_line};
ghost use Rattle.caps.specs.Printing.{Adds, PrintsAll, made};

use crate::failure::Failure;
use crate::input::Input;
use crate::output::Output;
use std::io::{Read, Write};

// The whole records that are held.
fn list_held<R: Read, W: Write>(input: &mut Input<R>, output: &mut Output<W>) -> Result<(), Failure>
    ensures lines { OnOk result (Adds output.old output.new (record_lines input.old.held (length input.old.held / 8))) }
    ensures rest { OnOk result (input.new ≡ record input.old { held = drop (length input.old.held / 8 * 8) input.old.held }) }
{
    let (records, _) = input.records();
    for bytes in records {
        output.make_room()?;
        output.put_record(bytes);
    }
    input.keep_unfinished();
    Ok(())
}

// The end of the input.
fn finish<W: Write>(left: usize, output: &mut Output<W>) -> Result<(), Failure>
    ensures { OnOk result (Appends (made output.old) output.new.written (end_line left)) }
{
    output.make_room()?;
    output.put_end(left);
    output.flush()
}

// All of the input, where nothing fails. A proved loop has to end, and nothing says that the input does. So it has more turns
// than any run uses up.
pub(crate) fn list_all<R: Read, W: Write>(
    input: &mut Input<R>,
    output: &mut Output<W>,
) -> Result<(), Failure>
    requires { length input.old.held < 8 }
    ensures { OnOk result (PrintsAll output.old input.old output.new) }
{
    for _ in 0..u64::MAX {
        // An error ends the program once the lines that are complete are written.
        let Ok(got) = input.read() else {
            return Err(match output.flush() {
                Ok(()) => Failure::Unreadable,
                Err(_) => Failure::Neither,
            });
        };
        if got == 0 {
            let (_, left) = input.records();
            return finish(left.len(), output);
        }
        list_held(input, output)?;
    }
    Err(Failure::Endless)
}
