ghost use Rattle.std.specs.Prelude.{◌≡◌, ◌≤◌, length};
ghost use Rattle.text_lines.specs.Faults.{line_in, name_of};

use std::error::Error;
use std::fmt;

/// A fault of a text: the first one in the order of its bytes.
///
/// Lines are counted from 1 over all that the reader reads.
#[derive(Clone, Copy, Debug, PartialEq, Eq)]
pub enum TextFault {
    /// The source failed in this call, before the text was complete.
    Read,
    /// The first line isn't that of a history or of a schedule, or is longer than 80 bytes.
    Header,
    /// The line has more than 80 bytes, or its words or the number of its fields are wrong; or it is a wrong first
    /// line of a verdict.
    Line(u64),
    /// A field of the line that should be a number isn't the digit 0, nor digits that begin with another one.
    Number(u64),
    /// A number of the line is out of its range, or the line is one more than a text may have.
    Limit(u64),
    /// The last line doesn't count the lines before it.
    Count,
    /// The input ends within a line or before the last one; in a verdict, before the first one.
    Cut,
    /// The input continues after its text.
    Trailing,
    /// Memory ran out for the content of a line without fault.
    Memory,
}

impl fmt::Display for TextFault {
    fn fmt<W: fmt::Write>(&self, f: &mut fmt::Formatter<W>) -> fmt::Result {
        f.write_str(self.name())?;
        match self.line() {
            Some(line) => write!(f, " {line}"),
            None => Ok(()),
        }
    }
}

impl Error for TextFault {}

impl TextFault {
    /// Returns the name of the fault, which is printed before the number of its line.
    pub fn name(self) -> &'static str
        ensures name { result.now ≡ name_of self }
        ensures short { length result.now ≤ 20 }
    {
        match self {
            TextFault::Read => "Read",
            TextFault::Header => "Header",
            TextFault::Line(_) => "Line",
            TextFault::Number(_) => "Number",
            TextFault::Limit(_) => "Limit",
            TextFault::Count => "Count",
            TextFault::Cut => "Cut",
            TextFault::Trailing => "Trailing",
            TextFault::Memory => "Memory",
        }
    }

    /// Returns the number of the faulty line, if the fault has one.
    pub fn line(self) -> Option<u64>
        ensures { result ≡ line_in self }
    {
        match self {
            TextFault::Line(n) | TextFault::Number(n) | TextFault::Limit(n) => Some(n),
            _ => None,
        }
    }
}
