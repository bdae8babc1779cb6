//! The function from a fault to its message.
ghost use Rattle.std.specs.Prelude.{◌≡◌, ◌++◌, IfOk, string_bytes};
ghost use Rattle.messages.specs.Messages.{IsMessage, IsMessageLine};

use crate::complaints::{Complaint, Reads};
use crate::history_faults::history_message;
use crate::message::Blank::{Number, Shown, Words};
use crate::message::{Message, filled};
use crate::quoting::printable;
use crate::text_faults::text_message;
use event_records::{MAX_EVENTS, MAX_OPERATIONS, MAX_TICKET};
use std::alloc::{AllocError, Global};
use stress_run::RunFault;
use strsim::levenshtein;

/// The message that memory ran out. It takes no memory.
pub const NO_MEMORY: &[u8] = b"fifobench: memory ran out\n";

/// The message that the answer wasn't written whole.
pub const NOT_WRITTEN: &[u8] = b"fifobench: standard output couldn't be written\n";

/// The maximum edit distance from a word to one that may have been meant.
const FEW_EDITS: usize = 2;

/// Returns the first name within that edit distance.
fn nearest<'a>(
    alloc: Global,
    name: &str,
    names: &[&'a str],
) -> Result<Option<&'a str>, AllocError> {
    for other in names {
        if levenshtein(alloc, name, other)? <= FEW_EDITS {
            return Ok(Some(other));
        }
    }
    Ok(None)
}

/// Joins the names by commas.
fn listed(alloc: Global, names: &[&str]) -> Result<String, AllocError> {
    let mut text = String::from_str(alloc, "the queues are")?;
    for (place, name) in names.iter().enumerate() {
        text.push_str(if place == 0 { " " } else { ", " })?;
        text.push_str(name)?;
    }
    Ok(text)
}

/// Builds the message for a queue that there isn't.
fn queue_message(alloc: Global, name: &str, names: &[&str]) -> Result<Message, AllocError> {
    let hint = listed(alloc, names)?;
    let shown = Shown(name.as_bytes());
    match nearest(alloc, name, names)? {
        Some(other) => {
            let sentence = "there is no queue '{}': did you mean '{}'?";
            Message::of(alloc, sentence, &[shown, Words(other)], &hint)
        }
        None => Message::of(alloc, "there is no queue '{}'", &[shown], &hint),
    }
}

/// Builds the message for a queue that more threads were to use than it serves.
fn roles_message(alloc: Global) -> Result<Message, AllocError> {
    Message::of(
        alloc,
        "proved-ring is a queue for one producer and one consumer",
        &[],
        "give it --threads 2 --producers 1, or --threads 1",
    )
}

/// Builds the message for a run that gave no history.
fn run_message(alloc: Global, fault: RunFault) -> Result<Message, AllocError> {
    match fault {
        RunFault::Memory => Message::of(alloc, "memory ran out", &[], ""),
        RunFault::Limit => Message::of(alloc, "the run is larger than a run may be", &[], ""),
        RunFault::Roles => roles_message(alloc),
        RunFault::Stalled(thread) => Message::of(
            alloc,
            "the ring of thread {} stayed full: its events weren't collected in time",
            &[Number(u64::from(thread))],
            "give it more room by --ring, or make fewer calls by --ops",
        ),
        RunFault::CloseLost(thread) | RunFault::Uncertified(thread) => Message::of(
            alloc,
            "the ring of thread {} didn't say that it is whole: the run can't be judged",
            &[Number(u64::from(thread))],
            "",
        ),
        RunFault::Preload(place) => Message::of(
            alloc,
            "the queue took {} of the values that it is to hold first, and refused the next",
            &[Number(place as u64)],
            "let it hold fewer first by --initial",
        ),
    }
}

/// Names the input of a command.
fn content(reads: Reads) -> &'static str {
    match reads {
        Reads::History => "a history",
        Reads::Claim => "a history and a verdict",
        Reads::Drawable => "a history, and a verdict if there is one,",
        Reads::Pending => "a history, whose calls may be pending,",
        Reads::Schedule => "a schedule",
    }
}

/// Builds the message for a completion beyond the limits of a history.
fn completion_message(alloc: Global) -> Result<Message, AllocError> {
    let blanks = [Number(MAX_EVENTS as u64), Number(MAX_TICKET)];
    let sentence =
        "with the returns that are added, there are more than {} events, or a ticket is above {}";
    Message::of(alloc, sentence, &blanks, "")
}

/// Builds the message for more operations than a run may have.
fn limit_message(alloc: Global, threads: u64, operations: u64) -> Result<Message, AllocError> {
    let blanks = [
        Number(threads),
        Number(operations),
        Number(threads.saturating_mul(operations)),
        Number(MAX_OPERATIONS as u64),
    ];
    let sentence = "--threads {} times --ops {} is {} operations: a run has at most {}";
    Message::of(alloc, sentence, &blanks, "")
}

/// Builds the message for an operand of a command that reads standard input.
fn file_message(alloc: Global, command: &str, reads: Reads) -> Result<Message, AllocError> {
    let blanks = [Words(content(reads)), Words(command)];
    let sentence = "{} is read from standard input: fifobench {} < FILE";
    Message::of(alloc, sentence, &blanks, "")
}

/// Builds the message for a history or verdict that is too large to be drawn.
fn size_message(alloc: Global) -> Result<Message, AllocError> {
    Message::of(
        alloc,
        "more than 400 operations, initial values or lines of a verdict aren't drawn",
        &[],
        "shrink the history first: fifobench shrink < FILE | fifobench draw",
    )
}

fn orders_message(alloc: Global) -> Result<Message, AllocError> {
    Message::of(
        alloc,
        "a YES with --local has a linearization for each producer, and no picture of one",
        &[],
        "`fifobench check --local` prints them",
    )
}

/// Builds the message for a complaint.
fn message_of(alloc: Global, complaint: &Complaint<'_>) -> Result<Message, AllocError> {
    match complaint {
        Complaint::Text(fault, given) => text_message(alloc, *fault, given),
        Complaint::History(fault, clash, given) => {
            history_message(alloc, *fault, clash.as_ref(), given)
        }
        Complaint::Size => size_message(alloc),
        Complaint::Orders => orders_message(alloc),
        Complaint::Queue { name, names } => queue_message(alloc, name, names),
        Complaint::Roles => roles_message(alloc),
        Complaint::Limit {
            threads,
            operations,
        } => limit_message(alloc, *threads, *operations),
        Complaint::Completion => completion_message(alloc),
        Complaint::Memory => Message::of(alloc, "memory ran out", &[], ""),
        Complaint::Run(fault) => run_message(alloc, *fault),
        Complaint::Write => Message::of(alloc, "standard output couldn't be written", &[], ""),
        Complaint::File { command, reads } => file_message(alloc, command, *reads),
    }
}

/// Builds a line of a message, which begins with the program's name.
fn line_of(alloc: Global, said: &str) -> Result<String, AllocError>
    ensures { IfOk result (λ text. IsMessageLine (string_bytes text)) }
{
    let said = printable(alloc, said.as_bytes())?;
    format!(in alloc; "fifobench: {said}\n")
}

/// Joins two lines.
fn joined(first: String, second: String) -> Result<String, AllocError>
    ensures { IfOk result (λ text. string_bytes text ≡ string_bytes first ++ string_bytes second) }
{
    let mut text = first;
    text.push_str(second.as_str())?;
    Ok(text)
}

/// Returns the text on standard error: a line that says what is wrong, and one that says what to do, if there is
/// something.
///
/// Takes time in proportion to the front of the input that is kept.
pub fn sentence<'a>(alloc: Global, complaint: &Complaint<'a>) -> Result<String, AllocError>
    ensures { IfOk result (λ text. IsMessage (string_bytes text)) }
{
    let Message { said, hint } = message_of(alloc, complaint)?;
    let said = line_of(alloc, &said)?;
    if hint.is_empty() {
        return Ok(said);
    }
    let hint = line_of(alloc, &hint)?;
    joined(said, hint)
}

/// Returns the prompt of a command that reads from a terminal.
pub fn greeting(alloc: Global, command: &str, reads: Reads) -> Result<String, AllocError>
    ensures { IfOk result (λ text. IsMessageLine (string_bytes text)) }
{
    let blanks = [Words(content(reads)), Words(command)];
    let sentence = "reading {} from the terminal; Ctrl-D ends it, fifobench {} < FILE reads a file";
    let said = filled(alloc, sentence, &blanks)?;
    line_of(alloc, &said)
}

/// Returns the hint for a `stress` that wrote this many events to a terminal.
pub fn keeping(alloc: Global, events: u64) -> Result<String, AllocError>
    ensures { IfOk result (λ text. IsMessageLine (string_bytes text)) }
{
    let sentence = "{} events were written; fifobench stress .. > FILE keeps them in a file";
    let said = filled(alloc, sentence, &[Number(events)])?;
    line_of(alloc, &said)
}
