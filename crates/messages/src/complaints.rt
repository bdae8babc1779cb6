//! The subjects of messages.
use history_merge::{Clash, HistoryFault};
use stress_run::RunFault;
use text_lines::TextFault;

/// The kind of input that a command reads.
#[derive(Clone, Copy, PartialEq, Eq)]
pub enum Reads {
    /// A history, and nothing after it.
    History,
    /// A history and a verdict.
    Claim,
    /// A history, then a verdict if anything follows.
    Drawable,
    /// A history whose calls may be pending, or a pending text.
    Pending,
    /// A schedule.
    Schedule,
}

/// The input of a command, as far as it is kept.
#[derive(Clone, Copy)]
pub struct Given<'a> {
    /// The kind of input.
    pub reads: Reads,
    /// The front of the bytes that were read.
    pub front: &'a [u8],
    /// True if the front is all that was read.
    pub is_whole: bool,
    /// The last bytes that were read, if the front isn't all; the first line of them may be cut.
    pub back: &'a [u8],
}

/// The reason why a command found nothing, or wrote nothing.
#[derive(Clone, Copy)]
pub enum Complaint<'a> {
    /// The input isn't the text that it should be.
    Text(TextFault, Given<'a>),
    /// The events of the input are no complete history. The clash says which lines contradict each other, if that is
    /// known.
    History(HistoryFault, Option<Clash>, Given<'a>),
    /// The history or the verdict is too large to be drawn.
    Size,
    /// The verdict has a linearization for each producer, which one picture can't show.
    Orders,
    /// No queue has this name; these are the names that there are.
    Queue { name: &'a str, names: &'a [&'a str] },
    /// The queue is for one producer and one consumer, and more were asked for.
    Roles,
    /// The threads have more operations together than a run may have.
    Limit { threads: u64, operations: u64 },
    /// The completion of a history has more events than a history may have, or a ticket above the greatest.
    Completion,
    /// Memory ran out.
    Memory,
    /// A run gave no history.
    Run(RunFault),
    /// The answer wasn't written whole.
    Write,
    /// A command that reads standard input has an operand, which may be the name of a file.
    File { command: &'a str, reads: Reads },
}
