ghost use Rattle.std.specs.Prelude.{◌≡◌, ◌+◌, ◌≤◌, length};
ghost use Rattle.value_match.specs.Inner.Courses.{on};
ghost use Rattle.value_match.specs.declared.matching.TheConstants.{MAX_MATCHED};
ghost use Rattle.history_merge.specs.Inner.Timeline.{timeline};
ghost use Rattle.history_merge.specs.Operations.{operations_of};
ghost use Rattle.value_match.specs.Lives.{course_of, HoldsPlaces, is_empty_answer, is_failed, ListsItsLives};
ghost use Rattle.value_match.specs.Outcome.{HoldsValues};
ghost use Rattle.value_match.specs.Violations.{IsClear};
ghost use Rattle.value_match.specs.Inner.ByKind.{IsByKindOf};

use crate::accepted::{Pair, Values};
use crate::places::Places;
use crate::violation::Violation;
use event_records::{MAX_EVENTS, MAX_INITIAL};
use history_merge::{History, OpId, Operations, PackedOperation};
use std::marker::Model;

/// The maximum number of operations that are matched: those of a history, and the enqueues of its initial values.
pub const MAX_MATCHED: usize = MAX_EVENTS + MAX_INITIAL;

/// Operations by kind: the successfully enqueued values with their dequeues, the empty dequeues and the failed
/// enqueues.
#[derive(Drop)]
pub(crate) struct ByKind {
    pub(crate) values: Vec<Pair>,
    pub(crate) empties: Vec<OpId>,
    pub(crate) failed: Vec<OpId>,
}

/// A complete history without phantom dequeues, in which no value is dequeued twice. Contracts see its initial values
/// and its operations.
///
/// A life is on the scale of times: ticket c has the time `ORIGIN + c`, and the j-th of k initial values is enqueued
/// at the time `ORIGIN + j - k`.
///
/// Borrows the history, and holds a word for each successfully enqueued value.
#[derive(Drop)]
pub struct Matching<'a> {
    history: &'a History,
    sorted: ByKind,
}

impl<'a> Model for Matching<'a> {
    ghost use Rattle.history_merge.specs.Initial.{Contents};
    ghost use Rattle.history_merge.specs.Inner.Timeline.{timeline};
    ghost use Rattle.history_merge.specs.Operations.{operations_of};
    ghost use Rattle.value_match.specs.Inner.ByKind.{IsByKindOf};

    ghost Value = { Contents };

    ghost view = { λ a. record { initial = a.history.now.initial; operations = operations_of a.history.now.events } };

    ghost invariant = { λ a.
        IsByKindOf (timeline a.history.now.initial (operations_of a.history.now.events)) a.sorted };
}

impl<'a> Matching<'a> {
    /// Makes the matching of this history.
    pub(crate) fn new(history: &'a History, sorted: ByKind) -> Matching<'a>
        requires { IsByKindOf (timeline history.now.initial (operations_of history.now.events)) sorted }
        ensures { result ≡ record { initial = history.now.initial; operations = operations_of history.now.events } }
    {
        Matching { history, sorted }
    }

    /// Returns the initial values, front first.
    pub fn initial(&self) -> &[u64]
        ensures initial { result.now ≡ self.now.initial }
        ensures clear { IsClear (course_of self.now) }
    {
        // Reads a field, so that the proof knows the invariant, from which `clear` follows.
        let _sorted = &self.sorted;
        self.history.initial()
    }

    /// Returns the operations, in the order of their calls.
    pub fn operations(&self) -> Operations<'_>
        ensures operations { result ≡ self.now.operations }
        ensures clear { IsClear (course_of self.now) }
        ensures few { length self.now.initial + length self.now.operations ≤ MAX_MATCHED }
    {
        self.history.operations()
    }

    /// Returns the empty dequeues, in the order of their calls.
    pub fn empties(&self) -> Places<'_>
        ensures { HoldsPlaces self.now.operations is_empty_answer result }
    {
        Places::new(self.history.initial().len(), self.sorted.empties.as_slice())
    }

    /// Returns the failed enqueues, in the order of their calls.
    pub fn failed(&self) -> Places<'_>
        ensures { HoldsPlaces self.now.operations is_failed result }
    {
        Places::new(self.history.initial().len(), self.sorted.failed.as_slice())
    }

    /// Returns the successfully enqueued values: the initial values, front first, and then the others in the order of
    /// their enqueues' calls.
    pub fn values(&self) -> Values<'_>
        ensures values { HoldsValues self.now result }
        ensures clear { IsClear (course_of self.now) }
        ensures lives { ListsItsLives (course_of self.now) }
    {
        Values::new(
            self.initial().len(),
            self.history.by_time(),
            self.sorted.values.as_slice(),
        )
    }
}

/// The result of matching: a matching, or the violation that rules it out, by the history's places.
#[derive(Drop)]
pub enum Matched<'a> {
    /// Each dequeue is of a value that was in the queue, and no value is dequeued twice.
    Clear(Matching<'a>),
    /// A phantom dequeue, as `Violation::Fresh`.
    Fresh(Violation),
    /// Two dequeues of one value, as `Violation::Repeat`.
    Repeat(Violation),
}
