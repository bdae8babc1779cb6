//! Small histories with pending calls, made by seeded words.
ghost use Rattle.std.specs.Prelude.{◌<◌};

use crate::tests::histories::Words;
use event_records::{Event, LEAST_INITIAL_NAME, What};
use std::alloc::{AllocError, Global};

/// The number of threads of a history.
const THREADS: u64 = 4;

/// The maximum number of events of a history.
const MOST_EVENTS: u64 = 16;

/// The state of a thread.
#[derive(Clone, Copy)]
enum Doing {
    Nothing,
    Enqueueing(u64),
    Dequeuing,
    Answered(What),
}

/// A history under construction: its events, the state of each thread, and the values in the queue.
#[derive(Drop)]
struct Making {
    events: Vec<Event>,
    doing: [Doing; THREADS as usize],
    values: Vec<u64>,
    enqueued: u64,
}

/// Dequeues the first value, if there is one.
fn taken(values: &mut Vec<u64>) -> What {
    if values.is_empty() {
        What::RetEmpty
    } else {
        What::RetDeq(values.remove(0))
    }
}

/// Performs the pending operation of a thread on the queue, if it isn't performed yet.
fn effect(doing: Doing, values: &mut Vec<u64>) -> Result<Doing, AllocError> {
    Ok(match doing {
        Doing::Enqueueing(value) => {
            values.push(value)?;
            Doing::Answered(What::RetEnq)
        }
        Doing::Dequeuing => Doing::Answered(taken(values)),
        _ => doing,
    })
}

/// Returns the answer, or now and then one that the queue didn't give.
fn told(words: &mut Words, what: What, enqueued: u64) -> What {
    if words.below(6) > 0 {
        return what;
    }
    match what {
        What::RetEnq => What::RetNot,
        What::RetEmpty | What::RetDeq(_) if enqueued > 0 => What::RetDeq(words.below(enqueued)),
        _ => What::RetEmpty,
    }
}

/// Returns the operation that an idle thread begins, with the event of its call.
fn begun(words: &mut Words, enqueued: u64) -> (Doing, What) {
    if words.below(2) == 0 {
        (Doing::Enqueueing(enqueued), What::CallEnq(enqueued))
    } else {
        (Doing::Dequeuing, What::CallDeq)
    }
}

impl Making {
    /// Returns a history without events, of a queue with these initial values.
    fn new(alloc: Global, values: Vec<u64>) -> Making {
        Making {
            events: Vec::new(alloc),
            doing: [Doing::Nothing; THREADS as usize],
            values,
            enqueued: 0,
        }
    }

    /// Appends an event of the thread.
    fn note(&mut self, thread: u8, what: What) -> Result<(), AllocError> {
        let ticket = self.events.len() as u64;
        self.events.push(Event {
            ticket,
            thread,
            what,
        })?;
        Ok(())
    }

    /// Takes a step of one thread, which calls, is given an answer, or returns.
    fn step(&mut self, words: &mut Words) -> Result<(), AllocError> {
        let place = words.below(THREADS) as usize;
        let thread = place as u8;
        match self.doing[place] {
            Doing::Nothing => {
                let (doing, what) = begun(words, self.enqueued);
                self.enqueued = self
                    .enqueued
                    .saturating_add(u64::from(what != What::CallDeq));
                self.doing[place] = doing;
                self.note(thread, what)
            }
            Doing::Answered(what) => {
                let what = told(words, what, self.enqueued);
                self.doing[place] = Doing::Nothing;
                self.note(thread, what)
            }
            doing => {
                self.doing[place] = effect(doing, &mut self.values)?;
                Ok(())
            }
        }
    }
}

/// Returns up to two initial values.
pub(crate) fn initial_values(alloc: Global, seed: u64) -> Result<Vec<u64>, AllocError> {
    (0..seed % 3)
        .map(|place| LEAST_INITIAL_NAME + place)
        .collect(alloc)
}

/// Returns the events of this seed, of a queue with these initial values.
pub(crate) fn seeded_events(
    alloc: Global,
    seed: u64,
    initial: &[u64],
) -> Result<Vec<Event>, AllocError> {
    let mut words = Words::new(seed);
    let steps = 4 + words.below(MOST_EVENTS * 3 / 2);
    let mut making = Making::new(alloc, initial.to_vec(alloc)?);
    for _ in 0..steps {
        making.step(&mut words)?;
    }
    Ok(making.events)
}
