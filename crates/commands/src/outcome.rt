//! Outcomes of commands.
ghost use Rattle.std.specs.Prelude.{◌≡◌, None};
ghost use Rattle.commands.specs.declared.outcome.Fault.TheVariants as made;

use history_merge::{Clash, History, HistoryFault};
use history_stats::{Overtaking, Statistics};
use history_text::{EventList, TextFault, Values, Version};
use simulation::Rejections;
use std::alloc::AllocError;
use stress_run::RunFault;
use verdicts::Verdict;

/// A report to be printed, or the fault because of which there is none.
pub type Outcome = Result<Report, Fault>;

/// The findings of a command.
#[derive(Drop)]
pub enum Report {
    /// A history and its verdict, of which the verdict alone is printed.
    Judged(History, Verdict),
    /// A history to be printed in a version, with its verdict.
    Shown(Version, History, Verdict),
    /// The refused steps of a schedule after which the machine isn't done.
    LeftOpen(Rejections),
    /// The refused steps of a schedule, and the history that it collected, with its verdict.
    Played(Rejections, History, Verdict),
    /// True if the claimed verdict is evidence.
    Verified(bool),
    /// A history on its own, to be printed in version 2.
    Converted(History),
    /// The initial values and events of a completion, to be printed in a version.
    Completed(Version, Values, EventList),
    /// The statistics of a history.
    Counted(Statistics),
    /// The dequeues that overtook values.
    Overtaken(Vec<Overtaking>),
    /// A picture, in lines of characters.
    Drawn(Vec<u8>),
}

/// The reason why events are no complete history, and the lines that clash, if these are known.
#[derive(Clone, Copy)]
pub struct Incomplete {
    pub fault: HistoryFault,
    pub clash: Option<Clash>,
}

/// The reason why a command found nothing: its input is refused, or it failed.
#[derive(Clone, Copy)]
pub enum Fault {
    /// The input isn't a well-formed text, or it wasn't read whole.
    Text(TextFault),
    /// The events are no complete history, or there was no memory for one.
    History(Incomplete),
    /// The history or the verdict has more initial values, operations or lines than are drawn.
    Size,
    /// The verdict has a linearization for each producer, which one picture can't show.
    Orders,
    /// No queue has the name that was asked for.
    Queue,
    /// The queue is for one producer and one consumer, and more were asked for.
    Roles,
    /// More operations were asked for than a run may have, or a completion is beyond the limits of a history.
    Limit,
    /// Memory ran out.
    Memory,
    /// A run gave no history.
    Run(RunFault),
}

impl From<AllocError> for Fault {
    ghost from_gives = { λ _ fault. fault ≡ made.Memory };

    fn from(_refused: AllocError) -> Fault {
        Fault::Memory
    }
}

impl From<TextFault> for Fault {
    ghost from_gives = { λ found fault. fault ≡ made.Text found };

    fn from(fault: TextFault) -> Fault {
        Fault::Text(fault)
    }
}

impl From<HistoryFault> for Fault {
    ghost from_gives = { λ found fault. fault ≡ made.History (record { fault = found; clash = None }) };

    fn from(fault: HistoryFault) -> Fault {
        Fault::History(Incomplete { fault, clash: None })
    }
}

impl From<RunFault> for Fault {
    ghost from_gives = { λ found fault. fault ≡ made.Run found };

    fn from(fault: RunFault) -> Fault {
        Fault::Run(fault)
    }
}
