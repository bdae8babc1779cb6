//! The builder of a history whose queue holds some values first.
ghost use Rattle.std.specs.Prelude.{◌≡◌, ◌<◌, ◌≤◌, ℕ, List, [], ◌∷◌, ◌++◌, None, IfErr};
ghost use Rattle.std.specs.Prelude.{IfOk, IfSome, IsErr, MatchResult, length, vec_len};
ghost use Rattle.event_records.specs.declared.event.Event.{Event};
ghost use Rattle.event_records.specs.declared.limits.TheConstants.{MAX_EVENTS, MAX_INITIAL};
ghost use Rattle.history_merge.specs.Clashes.{IsClash, fault_of};
ghost use Rattle.history_merge.specs.Faults.{IsFirstFault};
ghost use Rattle.history_merge.specs.Gathering.{HasGathered, KeepsFault};
ghost use Rattle.history_merge.specs.Initial.{IsCompleteFrom};

use crate::clash::Clash;
use crate::complete::History;
use crate::fault::HistoryFault;
use crate::gathering::Gathering;
use event_records::Event;
use std::alloc::Global;
use std::marker::Model;

/// A builder of a complete history (Herlihy and Wing 1990, section 2.1). It takes events one by one, and `finish`
/// returns the history or the first fault.
///
/// It keeps the operations alone, after an enqueue for each initial value, as long as the initial values rise and the
/// values of each thread have its name and rise. For names whose values don't, it keeps a set of these too.
///
/// The builder takes `events` one by one:
///
/// ```rust
/// let mut builder = HistoryBuilder::new(alloc, Vec::new(alloc));
/// for event in events {
///     builder.add(*event);
/// }
/// let recorded = builder.finish()?;
/// assert_eq!(rt; recorded.operations().len(), 1);
/// ```
#[derive(Drop)]
pub struct HistoryBuilder {
    gathering: Gathering,
}

impl Model for HistoryBuilder {
    ghost use Rattle.std.specs.Prelude.{ℕ, List};
    ghost use Rattle.event_records.specs.declared.event.Event.{Event};
    ghost use Rattle.history_merge.specs.Gathering.{BuilderView, HasGathered};

    ghost Value = { BuilderView };

    ghost view = { λ b. b.gathering };

    ghost invariant = { λ b. (initial : List ℕ) × (events : List Event) × HasGathered initial events b.gathering };
}

impl HistoryBuilder {
    /// Makes a builder with these initial values and no events. A fault of the values, also out of memory, is kept
    /// for `finish`.
    ///
    /// Takes O(k) time for k values that rise, otherwise O(k log k).
    pub fn new(alloc: Global, initial: Vec<u64>) -> HistoryBuilder
        requires { vec_len initial ≤ MAX_INITIAL }
        ensures { HasGathered initial.items [] result }
    {
        HistoryBuilder {
            gathering: Gathering::new(alloc, initial),
        }
    }

    /// Adds an event. A fault, also out of memory, is kept for `finish`.
    ///
    /// There is room for [`event_records::MAX_EVENTS`] events. One more isn't added, and `finish` then returns
    /// `Memory`, unless another fault is kept.
    ///
    /// Takes O(1) time as long as the values rise, otherwise O(log n) after n events and initial values. Sometimes
    /// the memory grows.
    #[tactic(auto, using(std::proofs::lemmas::Bool::cases_lt))]
    #[inline(always)]
    pub fn add(&mut self, event: Event)
        ensures added { (initial : List ℕ) (events : List Event) → HasGathered initial events self.old
            → length events < MAX_EVENTS
            → HasGathered initial (events ++ event ∷ []) self.new }
        ensures full { (initial : List ℕ) (events : List Event) → HasGathered initial events self.old
            → length events ≡ MAX_EVENTS
            → HasGathered initial events self.new × KeepsFault self.new }
    {
        self.gathering.add(event);
    }

    /// Returns the events or values that contradict each other at the first fault, if that is a `TicketOrder`,
    /// `CallWhilePending`, `WrongReturn`, `DuplicateValue`, `Pending` or `InitialTwice`, and memory didn't run out.
    /// [`Clash::fault`] is that fault then. A ticket above [`event_records::MAX_TICKET`] contradicts no other event.
    ///
    /// Takes O(n) time if there is a fault, otherwise O(1).
    pub fn clash(&self) -> Option<Clash>
        ensures clash { (initial : List ℕ) (events : List Event) → HasGathered initial events self.now
            → IfSome result (IsClash initial events) }
        ensures fault { (initial : List ℕ) (events : List Event) → HasGathered initial events self.now
            → IfSome result (λ clash. IsFirstFault initial events (fault_of clash)) }
        ensures none { (initial : List ℕ) (events : List Event) → HasGathered initial events self.now
            → IsCompleteFrom initial events → result ≡ None }
    {
        self.gathering.clash()
    }

    /// Returns the history of the initial values and the events if it is complete, otherwise the first fault.
    ///
    /// `InitialTwice`, the fault of initial values, takes precedence over all others but `Memory`. Of the events the
    /// first faulty one decides, and of its faults the one that [`HistoryFault`] lists first; a call to enqueue an
    /// initial value has the fault `DuplicateValue` too. If no event has a fault, `Pending` names the least call
    /// ticket without a return. `Memory` comes if memory ran out, and then says nothing about the values and the
    /// events.
    #[tactic(auto, using(crate::proofs::Faults::complete_has_no_fault))]
    pub fn finish(self) -> Result<History, HistoryFault>
        ensures outcome { (initial : List ℕ) (events : List Event) → HasGathered initial events self
            → MatchResult result (λ whole. (whole.initial ≡ initial) × (whole.events ≡ events))
            (IsFirstFault initial events) }
        ensures complete { IfOk result (λ whole. IsCompleteFrom whole.initial whole.events) }
        ensures refused { (initial : List ℕ) (events : List Event) → HasGathered initial events self
            → IfErr result (λ fault. IsCompleteFrom initial events → fault ≡ HistoryFault.Memory) }
        ensures kept { KeepsFault self → IsErr result }
    {
        let HistoryBuilder { gathering } = self;
        gathering.finish()
    }
}
