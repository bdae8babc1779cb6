ghost use Rattle.std.specs.Prelude.{◌≡◌};
ghost use Rattle.history_merge.specs.declared.fault.HistoryFault.TheVariants.{Memory};
ghost use Rattle.completions.specs.declared.fault.CompletionFault.TheVariants.{History};

use history_merge::HistoryFault;
use std::alloc::AllocError;
use thiserror::Error;

/// The reason why a history isn't completed.
#[derive(Clone, Copy, Debug, PartialEq, Eq, Error)]
pub enum CompletionFault {
    /// The first fault of the initial values and the events, unless it is `Pending`; or memory ran out.
    #[error("{0}")]
    History(HistoryFault),
    /// The completion has more events than a history may have, or a ticket above the greatest.
    #[error("Limit")]
    Limit,
}

impl From<AllocError> for CompletionFault {
    ghost from_gives = { λ _ fault. fault ≡ History Memory };

    fn from(_refused: AllocError) -> CompletionFault {
        CompletionFault::History(HistoryFault::Memory)
    }
}
