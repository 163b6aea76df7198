// How a source of lines ends.
ghost use Rattle.std.specs.Prelude.{Some};
ghost use Rattle.kallsyms.specs.Faults.{fault_text};

use std::fmt;

/// What is wrong with a line, and the number of that line, counted from 1.
#[derive(Clone, Copy, Debug, PartialEq, Eq)]
pub enum Fault {
    /// The line has more than 1,024 bytes.
    LineTooLong { line: u64 },
    /// The line has a byte of 128 or more.
    ByteTooLarge { line: u64 },
}

/// How a source ends after its last line: every line was given, or a line with a fault stands after the last that was given.
pub type End = Result<(), Fault>;

/// The line that has the fault, and what is wrong with it.
impl fmt::Display for Fault {
    ghost output = { λ f. Some (fault_text f) };

    fn fmt<W: fmt::Write>(&self, f: &mut fmt::Formatter<W>) -> fmt::Result {
        match *self {
            Fault::LineTooLong { line } => write!(f, "line {line} has more than 1024 bytes"),
            Fault::ByteTooLarge { line } => write!(f, "line {line} has a byte of 128 or more"),
        }
    }
}
