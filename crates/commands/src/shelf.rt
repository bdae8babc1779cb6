//! The built-in queues and their names.
ghost use Rattle.std.specs.Prelude.{◌≡◌, IfOk, map};
ghost use Rattle.commands.specs.Shelf.{name_of, built_in_names};

use event_records::{AnsweredDeq, AnsweredEnq, AskDeq, AskEnq};
use queue_interface::{
    ArrayBack, Doubling, Inventing, Lifo, LockedQueue, Losing, SegBack, Shy, TestQueue,
    TwoLockQueue,
};
use std::alloc::{AllocError, Global};
use std::sync::Wait;

/// The capacity of the queue `array`.
const ARRAY_CAPACITY: usize = 1024;

/// A built-in queue.
#[derive(Drop)]
pub enum BuiltIn<R: Wait + Drop> {
    Locked(LockedQueue<R>),
    TwoLock(TwoLockQueue<R>),
    Array(ArrayBack<R>),
    Seg(SegBack<R>),
    Lifo(Lifo<R>),
    Doubling(Doubling<R>),
    Inventing(Inventing<R>),
    Shy(Shy<R>),
    Losing(Losing<R>),
}

impl<R: Wait + Drop> BuiltIn<R> {
    /// Returns the name by which `stress` finds the queue.
    pub fn name(&self) -> &'static str
        ensures { result.now ≡ name_of self.now }
    {
        match self {
            BuiltIn::Locked(_) => "locked",
            BuiltIn::TwoLock(_) => "two-lock",
            BuiltIn::Array(_) => "array",
            BuiltIn::Seg(_) => "seg",
            BuiltIn::Lifo(_) => "lifo",
            BuiltIn::Doubling(_) => "doubling",
            BuiltIn::Inventing(_) => "inventing",
            BuiltIn::Shy(_) => "shy",
            BuiltIn::Losing(_) => "losing",
        }
    }
}

/// Forwards a call to the queue, of whichever kind it is.
macro_rules! on_queue {
    ($built_in:expr, $queue:ident => $answer:expr) => {
        match $built_in {
            BuiltIn::Locked($queue) => $answer,
            BuiltIn::TwoLock($queue) => $answer,
            BuiltIn::Array($queue) => $answer,
            BuiltIn::Seg($queue) => $answer,
            BuiltIn::Lifo($queue) => $answer,
            BuiltIn::Doubling($queue) => $answer,
            BuiltIn::Inventing($queue) => $answer,
            BuiltIn::Shy($queue) => $answer,
            BuiltIn::Losing($queue) => $answer,
        }
    };
}

impl<R: Wait + Drop + Send + Sync> TestQueue for BuiltIn<R> {
    ghost use Rattle.queue_interface.specs.Answers.{AnswersInKind, TakesOrRefuses};

    ghost may = { λ _. AnswersInKind };

    ghost may_preload = { λ _ _. TakesOrRefuses };

    fn enqueue(&self, ask: AskEnq) -> AnsweredEnq {
        on_queue!(self, queue => queue.enqueue(ask))
    }

    fn dequeue(&self, ask: AskDeq) -> AnsweredDeq {
        on_queue!(self, queue => queue.dequeue(ask))
    }

    fn preload(&self, place: usize, value: u64) -> bool {
        on_queue!(self, queue => queue.preload(place, value))
    }
}

/// Returns one empty queue of each kind, in the order of the program's shelf.
pub fn built_ins<R: Wait + Drop + Copy>(rt: R, alloc: Global) -> Result<Vec<BuiltIn<R>>, AllocError>
    ensures { IfOk result (λ queues. map name_of queues.items ≡ built_in_names) }
{
    let mut queues = Vec::new(alloc);
    queues.push(BuiltIn::Locked(LockedQueue::new(alloc, rt)))?;
    queues.push(BuiltIn::TwoLock(TwoLockQueue::new(alloc, rt)))?;
    queues.push(BuiltIn::Array(ArrayBack::new(alloc, rt, ARRAY_CAPACITY)?))?;
    queues.push(BuiltIn::Seg(SegBack::new(alloc, rt)?))?;
    queues.push(BuiltIn::Lifo(Lifo::new(alloc, rt)))?;
    queues.push(BuiltIn::Doubling(Doubling::new(alloc, rt)))?;
    queues.push(BuiltIn::Inventing(Inventing::new(alloc, rt)))?;
    queues.push(BuiltIn::Shy(Shy::new(alloc, rt)))?;
    queues.push(BuiltIn::Losing(Losing::new(alloc, rt)))?;
    Ok(queues)
}
