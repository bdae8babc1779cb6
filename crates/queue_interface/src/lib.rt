//! Queues under test. Each consumes a question and returns it with an answer that it may give.
//!
//! To test a queue of your own, write an `impl` of `TestQueue`. The others are built in: four right ones,
//! `LockedQueue`, `TwoLockQueue`, `ArrayBack` and `SegBack`; five with faults, `Lifo`,
//! `Doubling`, `Inventing`, `Shy` and `Losing`; and two for tests of the recorder, `ScriptQueue` and `GateQueue`.
#![tactic(auto)]

mod answers;
mod backed;
mod faulty;
mod gate;
mod locked;
mod script;
mod two_lock;

ghost use Rattle.std.specs.Prelude.{◌≡◌, ℕ, Bool};
ghost use Rattle.event_records.specs.Question.{Question};
ghost use Rattle.event_records.specs.declared.kind.Answer.{Answer};

pub use backed::{ArrayBack, SegBack};
pub use event_records::{AnsweredDeq, AnsweredEnq, AskDeq, AskEnq};
pub use faulty::{
    Doubling, DoublingList, Inventing, InventingList, Lifo, Losing, LosingList, Shy, ShyList, Stack,
};
pub use gate::GateQueue;
pub use locked::{Fifo, Locked, LockedQueue, ValueList};
pub use script::{Entry, ScriptQueue};
pub use two_lock::TwoLockQueue;

/// A queue that threads share. `may` says which answers it may give to a question, and `may_preload` to a value that
/// is put in before a run, by its place from 0.
///
/// A call uses its question up, and the answered value holds it. So an answer belongs to the very question that was
/// asked: to its thread, number, kind, call ticket and ticket word. A queue that is out of memory answers
/// `not_taken`.
///
/// A queue that may wait for another thread holds the runtime that its `new` was given.
///
/// A queue with room for one value:
///
/// ```rust
/// #[derive(Drop)]
/// struct OneSlot<R: Wait + Drop> {
///     rt: R,
///     slot: Mutex<Option<u64>>,
/// }
///
/// impl<R: Wait + Drop + Send + Sync> TestQueue for OneSlot<R> {
///     ghost use Rattle.fifobench_core.specs.Answers.{AnswersInKind, TakesOrRefuses};
///
///     ghost may = { λ _. AnswersInKind };
///
///     ghost may_preload = { λ _ _. TakesOrRefuses };
///
///     fn enqueue(&self, ask: AskEnq) -> AnsweredEnq {
///         if self.fill(ask.value()) {
///             ask.taken()
///         } else {
///             ask.not_taken()
///         }
///     }
///
///     fn dequeue(&self, ask: AskDeq) -> AnsweredDeq {
///         let taken = self.slot.lock(&self.rt).take();
///         match taken {
///             Some(value) => ask.got(value),
///             None => ask.empty(),
///         }
///     }
///
///     fn preload(&self, _place: usize, value: u64) -> bool {
///         self.fill(value)
///     }
/// }
///
/// impl<R: Wait + Drop> OneSlot<R> {
///     fn fill(&self, value: u64) -> bool {
///         let mut slot = self.slot.lock(&self.rt);
///         if slot.is_some() {
///             return false;
///         }
///         *slot = Some(value);
///         true
///     }
/// }
/// ```
pub trait TestQueue: Drop + Send + Sync {
    ghost may: { Self → Question → Answer → Type 0 };

    ghost may_preload: { Self → ℕ → ℕ → Bool → Type 0 };

    /// Answers a question to enqueue.
    fn enqueue(&self, ask: AskEnq) -> AnsweredEnq
        ensures question { result.question ≡ ask }
        ensures allowed { may self.now ask result.answer };

    /// Answers a question to dequeue.
    fn dequeue(&self, ask: AskDeq) -> AnsweredDeq
        ensures question { result.question ≡ ask }
        ensures allowed { may self.now ask result.answer };

    /// Appends a value before a run, and returns whether it did: false if the queue is full or out of memory. Values
    /// are put in one after another, the front one first, each with its place from 0.
    ///
    /// This is no operation: no question asks it, it is recorded nowhere, and built-in queues with faults don't count
    /// it. It may wait as `enqueue` may. Whether the value is there
    /// afterwards is the queue's own affair, like all that it holds; a queue that holds nothing returns true.
    fn preload(&self, place: usize, value: u64) -> bool
        ensures allowed { may_preload self.now place value result };
}
