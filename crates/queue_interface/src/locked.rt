// A list of values under one lock.
ghost use Rattle.std.specs.Prelude.{◌≡◌};

use crate::TestQueue;
use crate::answers::{dequeued, enqueued};
use event_records::{AnsweredDeq, AnsweredEnq, AskDeq, AskEnq};
use std::alloc::Global;
use std::collections::VecDeque;
use std::marker::Model;
use std::sync::{Mutex, Wait};

/// A list of values that one thread at a time uses.
pub trait ValueList: Drop + Send {
    /// Makes a list without values. It takes no memory.
    fn empty(alloc: Global) -> Self;

    /// Adds a value, and returns whether it did: false if memory ran out.
    fn put(&mut self, value: u64) -> bool;

    /// Appends a value before a run, and returns whether it did. Lists with faults don't count this call.
    fn preload(&mut self, value: u64) -> bool;

    /// Takes a value out, if it finds one.
    fn take(&mut self) -> Option<u64>;
}

/// A queue that is a list under one lock. It waits for the lock by its own runtime.
#[derive(Drop)]
pub struct Locked<L: ValueList, R: Wait + Drop> {
    rt: R,
    list: Mutex<L>,
}

impl<L: ValueList, R: Wait + Drop> Locked<L, R> {
    /// Makes an empty queue. Its memory grows with its values.
    pub fn new(alloc: Global, rt: R) -> Locked<L, R> {
        Locked {
            rt,
            list: Mutex::new(L::empty(alloc)),
        }
    }
}

impl<L: ValueList, R: Wait + Drop + Send + Sync> TestQueue for Locked<L, R> {
    ghost use Rattle.queue_interface.specs.Answers.{AnswersInKind, TakesOrRefuses};

    ghost may = { λ _. AnswersInKind };

    ghost may_preload = { λ _ _. TakesOrRefuses };

    fn enqueue(&self, ask: AskEnq) -> AnsweredEnq {
        let taken = self.list.lock(&self.rt).put(ask.value());
        enqueued(ask, taken)
    }

    fn dequeue(&self, ask: AskDeq) -> AnsweredDeq {
        let got = self.list.lock(&self.rt).take();
        dequeued(ask, got)
    }

    fn preload(&self, _place: usize, value: u64) -> bool {
        self.list.lock(&self.rt).preload(value)
    }
}

/// Values that come out first in, first out. Contracts see them as a list.
#[derive(Drop)]
pub struct Fifo {
    values: VecDeque<u64>,
}

impl Model for Fifo {
    ghost use Rattle.std.specs.Prelude.{List, ℕ};

    ghost Value = { List ℕ };

    ghost view = { λ f. f.values.items };
}

impl Fifo {
    ghost use Rattle.std.specs.Prelude.{◌≡◌, ◌++◌, [], IfNone, slice_get};
    ghost use Rattle.std.specs.Option.{option_to_list};

    // Returns the value that the next `take` returns.
    pub(crate) fn first(&self) -> Option<u64>
        ensures { result ≡ slice_get self.now 0 }
    {
        self.values.front().copied()
    }

    // Takes the last value out.
    pub(crate) fn take_last(&mut self) -> Option<u64>
        ensures last { self.old ≡ self.new ++ option_to_list result }
        ensures none { IfNone result (self.old ≡ []) }
    {
        self.values.pop_back()
    }
}

impl ValueList for Fifo {
    ghost use Rattle.std.specs.Prelude.{◌≡◌, ◌++◌, ◌∷◌, [], if◌then◌else◌, IfNone};
    ghost use Rattle.std.specs.Option.{option_to_list};

    fn empty(alloc: Global) -> Fifo
        ensures { result ≡ [] }
    {
        Fifo {
            values: VecDeque::new(alloc),
        }
    }

    fn put(&mut self, value: u64) -> bool
        ensures { self.new ≡ (if result then self.old ++ value ∷ [] else self.old) }
    {
        self.values.push_back(value).is_ok()
    }

    fn preload(&mut self, value: u64) -> bool
        ensures { self.new ≡ (if result then self.old ++ value ∷ [] else self.old) }
    {
        self.put(value)
    }

    fn take(&mut self) -> Option<u64>
        ensures first { self.old ≡ option_to_list result ++ self.new }
        ensures none { IfNone result (self.old ≡ []) }
    {
        self.values.pop_front()
    }
}

/// A FIFO queue under one lock.
pub type LockedQueue<R> = Locked<Fifo, R>;
