// What the program could not do.
use std::fmt;

#[derive(Clone, Copy, Debug, PartialEq, Eq)]
pub(crate) enum Failure {
    Unreadable,
    Unwritable,
    // The lines that were complete at a failed read could not be written either.
    Neither,
    // There were more reads than any run makes. Nothing is said.
    Endless,
}

const UNREADABLE: &str = "caps: standard input cannot be read\n";

const UNWRITABLE: &str = "caps: standard output cannot be written\n";

impl fmt::Display for Failure {
    fn fmt<W: fmt::Write>(&self, f: &mut fmt::Formatter<W>) -> fmt::Result {
        match self {
            Failure::Unreadable => f.write_str(UNREADABLE),
            Failure::Unwritable => f.write_str(UNWRITABLE),
            Failure::Neither => {
                f.write_str(UNWRITABLE)?;
                f.write_str(UNREADABLE)
            }
            Failure::Endless => Ok(()),
        }
    }
}
