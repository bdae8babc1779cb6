// A queue that answers from a table.
use crate::TestQueue;
use event_records::{AnsweredDeq, AnsweredEnq, AskDeq, AskEnq};
use std::marker::Model;

/// The answer of a script to one operation.
#[derive(Clone, Copy, Debug, PartialEq, Eq)]
pub enum Entry {
    /// The value of an enqueue is taken.
    Taken,
    /// The value of an enqueue is not taken.
    NotTaken,
    /// A dequeue gets this value.
    Got(u64),
    /// A dequeue finds the queue empty.
    Empty,
}

/// A queue that answers from a table: the n-th operation of a thread by the n-th entry of that thread's row.
///
/// Outside the table, and if the entry is of another kind, an enqueue is not taken and a dequeue finds the queue
/// empty.
#[derive(Drop)]
pub struct ScriptQueue {
    rows: Vec<Vec<Entry>>,
}

impl Model for ScriptQueue {
    ghost use Rattle.std.specs.Prelude.{List, map};
    ghost use Rattle.queue_interface.specs.declared.script.Entry.{Entry};

    ghost Value = { List (List Entry) };

    ghost view = { λ s. map (λ row. row.items) s.rows.items };
}

impl ScriptQueue {
    ghost use Rattle.std.specs.Prelude.{◌≡◌, map};
    ghost use Rattle.queue_interface.specs.Answers.{entry_at};

    /// Makes a queue over these rows, one for each thread from 0 on.
    pub fn new(rows: Vec<Vec<Entry>>) -> ScriptQueue
        ensures { result ≡ map (λ row. row.items) rows.items }
    {
        ScriptQueue { rows }
    }

    // Returns the entry of a thread's n-th operation.
    fn entry(&self, thread: u8, number: u64) -> Option<Entry>
        ensures { result ≡ entry_at self.now thread number }
    {
        let row = self.rows.get(thread as usize)?;
        row.get(number as usize).copied()
    }
}

impl TestQueue for ScriptQueue {
    ghost use Rattle.std.specs.Prelude.{◌≡◌, true};
    ghost use Rattle.queue_interface.specs.Answers.{scripted};

    ghost may = { λ script question answer. answer ≡ scripted script question };

    ghost may_preload = { λ _ _ _ taken. taken ≡ true };

    fn enqueue(&self, ask: AskEnq) -> AnsweredEnq {
        match self.entry(ask.thread(), ask.number()) {
            Some(Entry::Taken) => ask.taken(),
            _ => ask.not_taken(),
        }
    }

    fn dequeue(&self, ask: AskDeq) -> AnsweredDeq {
        match self.entry(ask.thread(), ask.number()) {
            Some(Entry::Got(value)) => ask.got(value),
            _ => ask.empty(),
        }
    }

    fn preload(&self, _place: usize, _value: u64) -> bool {
        true
    }
}
