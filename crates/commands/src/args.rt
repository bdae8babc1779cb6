//! The program's arguments, and the faults because of which a command can't begin.
ghost use Rattle.std.specs.Prelude.{◌≡◌, false};
ghost use Rattle.commands.specs.Answers.{memory_fault};
ghost use Rattle.commands.specs.Running.{Prints, PrintsAnswer, WritesAndFlushes, no_text};
ghost use Rattle.commands.specs.declared.args.StartFault.TheVariants.{NoText, Memory};

use crate::print::{print_memory, print_text};
use crate::stderr::{Terminals, tell};
use history_text::TextSink;
use messages::{NO_MEMORY, NOT_WRITTEN};
use std::env;
use std::env::Env;
use std::io::ErrorKind;
use thiserror::Error;

/// The line that is printed if an argument isn't UTF-8.
const NO_TEXT: &[u8] = b"error: a word is not valid UTF-8\n";

/// The reason why a command can't begin.
#[derive(Clone, Copy, Debug, PartialEq, Eq, Error)]
pub enum StartFault {
    /// An argument isn't UTF-8.
    #[error("NoText")]
    NoText,
    /// Memory ran out for the arguments or for the shelf.
    #[error("Memory")]
    Memory,
}

/// Returns the arguments, the program's name first.
pub fn args_of<R: Env + AllocGlobal>(rt: &R) -> Result<Vec<String>, StartFault> {
    let args = match env::args(rt) {
        Ok(args) => args,
        Err(error) if error.kind() == ErrorKind::OutOfMemory => return Err(StartFault::Memory),
        Err(_) => return Err(StartFault::NoText),
    };
    args.collect(rt.alloc()).map_err(|_| StartFault::Memory)
}

/// Writes why a command can't begin to both streams, flushes the writer, and returns the status.
pub fn print_start_fault<W: TextSink, E: TextSink>(
    fault: StartFault,
    writer: &mut W,
    errors: &mut E,
    terminals: Terminals,
) -> u8
    requires fresh { W.has_refused writer.old ≡ false }
    ensures no_text { fault ≡ NoText → Prints (W.contents writer.old) (W.contents writer.new)
        (W.has_refused writer.new) result no_text 2 }
    ensures memory { fault ≡ Memory → PrintsAnswer (W.contents writer.old) (W.contents writer.new)
        (W.has_refused writer.new) result memory_fault }
    ensures asked { WritesAndFlushes W.transition (W.has_refused writer.new) writer.old writer.new }
    ensures passed_on { W.has_refused writer.new ≡ false → W.holds_back writer.new ≡ false }
{
    let status = match fault {
        StartFault::NoText => print_text(NO_TEXT, 2, writer),
        StartFault::Memory => print_memory(writer),
    };
    match (fault, status) {
        (StartFault::NoText, 2) if terminals.output => {}
        (StartFault::NoText, 2) => tell(NO_TEXT, errors),
        (StartFault::NoText, _) => tell(NOT_WRITTEN, errors),
        (StartFault::Memory, _) => tell(NO_MEMORY, errors),
    }
    status
}
