//! The lines of faults.
ghost use Rattle.std.specs.Prelude.{◌≡◌, ◌≤◌, ◌++◌, [], length};
ghost use Rattle.text_lines.specs.Lines.{line};
ghost use Rattle.text_lines.specs.Writing.{Writes};
ghost use Rattle.commands.specs.Answers.{answer_text, answer_status, beginning, fault_status, named};
ghost use Rattle.commands.specs.Outcomes.{answer_of_fault, name_of, place_in};

use crate::outcome::{Fault, Incomplete};
use history_merge::HistoryFault;
use history_text::{TextFault, TextSink, WriteFault, write_piece};
use text_lines::WriteBuffer;

impl Fault {
    /// Returns the name, which is printed before the place.
    pub fn name(self) -> &'static str
        ensures name { result.now ≡ name_of self }
        ensures short { length result.now ≤ 20 }
    {
        match self {
            Fault::Text(fault) => fault.name(),
            Fault::History(incomplete) => incomplete.fault.name(),
            Fault::Size => "Size",
            Fault::Orders => "Orders",
            Fault::Queue => "Queue",
            Fault::Roles => "Roles",
            Fault::Limit => "Limit",
            Fault::Memory => "Memory",
            Fault::Run(fault) => fault.name(),
        }
    }

    /// Returns the place, line, ticket or thread that the fault names.
    pub fn place(self) -> Option<u64>
        ensures { result ≡ place_in self }
    {
        match self {
            Fault::Text(fault) => fault.line(),
            Fault::History(incomplete) => incomplete.fault.place(),
            Fault::Run(fault) => fault.place(),
            Fault::Size | Fault::Orders | Fault::Queue | Fault::Roles => None,
            Fault::Limit | Fault::Memory => None,
        }
    }

    /// Returns whether the input or the arguments are refused; else the command failed.
    pub fn is_refusal(self) -> bool
        ensures line { answer_text (answer_of_fault self)
            ≡ line (beginning result ++ named (name_of self) (place_in self)) }
        ensures status { answer_status (answer_of_fault self) ≡ fault_status result }
    {
        match self {
            Fault::Text(TextFault::Read | TextFault::Memory) => false,
            Fault::History(
                Incomplete {
                    fault: HistoryFault::Memory,
                    ..
                },
            ) => false,
            Fault::Memory | Fault::Run(_) => false,
            _ => true,
        }
    }

    /// Returns the status: 2 of a refusal, 3 of a failure.
    pub fn status(self) -> u8
        ensures { result ≡ answer_status (answer_of_fault self) }
    {
        if self.is_refusal() { 2 } else { 3 }
    }
}

/// Appends the line of a fault.
fn push_fault(fault: Fault, kept: &mut WriteBuffer)
    requires { kept.old ≡ [] }
    ensures { kept.new ≡ answer_text (answer_of_fault fault) }
{
    let beginning: &[u8] = if fault.is_refusal() {
        b"REFUSED "
    } else {
        b"FAULT "
    };
    kept.push(beginning);
    kept.push(fault.name().as_bytes());
    if let Some(place) = fault.place() {
        kept.push(b" ");
        kept.push_number(place);
    }
    kept.push(b"\n");
}

/// Writes the line of a fault: `REFUSED` or `FAULT`, its name, and the place, line, ticket or thread that it names.
pub(crate) fn write_fault<W: TextSink>(fault: Fault, writer: &mut W) -> Result<(), WriteFault>
    ensures { Writes W.contents W.has_refused W.transition
        (answer_text (answer_of_fault fault)) writer.old writer.new result }
{
    let mut kept = WriteBuffer::new();
    push_fault(fault, &mut kept);
    write_piece(kept.as_slice(), writer)
}
