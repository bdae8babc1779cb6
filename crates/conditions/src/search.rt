//! The search for the producers of values, for one operation after another.
ghost use Rattle.std.specs.Prelude.{◌≡◌, IfOk, IfSome, OnOk, Some};
ghost use Rattle.verdicts.specs.Selection.{contents_of};
ghost use Rattle.conditions.specs.Conditions.{producer_of};
ghost use Rattle.conditions.specs.Inner.Producers.{KnowsProducers};

use crate::producer::Producer;
use crate::producers::{Producers, produced_by};
use history_merge::History;
use std::alloc::{AllocError, Global};
use value_match::CallTable;

/// The producers of a history's values: from the enqueues near an operation, or else from a list of all.
#[derive(Drop)]
pub(crate) struct ProducerSearch {
    near: CallTable,
    /// The producers of all values, once a value wasn't found near its dequeue.
    all: Option<Producers>,
}

impl ProducerSearch {
    /// Begins before the first operation of a history. Takes time in proportion to its initial values.
    pub(crate) fn new(alloc: Global, history: &History) -> Result<ProducerSearch, AllocError>
        ensures { IfOk result (KnowsProducers (contents_of history.now)) }
    {
        let initial_count = history.initial().len();
        let mut near = CallTable::new(alloc, history.by_time(), initial_count)?;
        for _ in 0..initial_count {
            near.note_next(history.by_time());
        }
        Ok(ProducerSearch { near, all: None })
    }

    /// Goes on to the next operation.
    pub(crate) fn note_next(&mut self, history: &History)
        ensures { self.new.all ≡ self.old.all }
    {
        self.near.note_next(history.by_time());
    }

    /// Returns the producer of a value, if the value is enqueued near the operation.
    fn near_producer(&self, history: &History, value: u64) -> Option<Producer>
        ensures { IfSome result (λ producer. producer_of (contents_of history.now) value ≡ Some producer) }
    {
        let by_time = history.by_time();
        let place = self.near.find(by_time, value)?;
        let produced = produced_by(by_time[place].unpack())?;
        Some(produced.producer)
    }

    /// Returns the producer of a value, if it is enqueued.
    ///
    /// For the first value that isn't enqueued near the operation all are sorted, in O(n log n) time for n enqueues
    /// and initial values. For each of the others this is a binary search.
    pub(crate) fn producer_of(
        &mut self,
        alloc: Global,
        history: &History,
        value: u64,
    ) -> Result<Option<Producer>, AllocError>
        requires { KnowsProducers (contents_of history.now) self.old }
        ensures producer { IfOk result (λ producer. producer ≡ producer_of (contents_of history.now) value) }
        ensures knows { OnOk result (KnowsProducers (contents_of history.now) self.new) }
    {
        if let Some(producer) = self.near_producer(history, value) {
            return Ok(Some(producer));
        }
        if let Some(all) = &self.all {
            return Ok(all.producer_of(value));
        }
        let all = Producers::new(alloc, history)?;
        let producer = all.producer_of(value);
        self.all = Some(all);
        Ok(producer)
    }
}
