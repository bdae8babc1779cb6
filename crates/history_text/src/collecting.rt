//! Collectors of the items of a text.
ghost use Rattle.std.specs.Prelude.{◌≡◌, ◌<◌, ◌++◌, ◌∷◌, [], List, ℕ, OnOk, length};
ghost use Rattle.event_records.specs.declared.event.Event.{Event};
ghost use Rattle.event_records.specs.declared.limits.TheConstants.{MAX_EVENTS};
ghost use Rattle.history_merge.specs.Gathering.{HasGathered};
ghost use Rattle.std.proofs.Common.{sym, append-nil};

use event_records::Event;
use history_merge::HistoryBuilder;
use std::alloc::AllocError;

/// A collector of the items of a text, one after another.
pub(crate) trait Collects<T> {
    /// Relates the collector before and after these items were added in turn.
    ghost Adds: { Self → Self → List T → Type 0 };

    fn add(&mut self, item: T) -> Result<(), AllocError>
        ensures { (first : Self) (items : List T) → Adds first self.old items → length items < MAX_EVENTS
            → OnOk result (Adds first self.new (items ++ item ∷ [])) };

    /// Without items nothing changes.
    ghost none: { (first : Self) → Adds first first [] };
}

impl<T: Drop> Collects<T> for Vec<T> {
    ghost Adds = { λ first now items. now.items ≡ first.items ++ items };

    ghost none = { λ first. sym (append-nil first.items) };

    #[inline(always)]
    fn add(&mut self, item: T) -> Result<(), AllocError> {
        match self.push(item) {
            Ok(()) => Ok(()),
            Err(_) => Err(AllocError),
        }
    }
}

impl Collects<Event> for HistoryBuilder {
    ghost Adds = { λ first now events. (initial : List ℕ) → HasGathered initial [] first
        → HasGathered initial events now };

    ghost none = { λ first initial begun. begun };

    #[inline(always)]
    fn add(&mut self, item: Event) -> Result<(), AllocError> {
        HistoryBuilder::add(self, item);
        Ok(())
    }
}
