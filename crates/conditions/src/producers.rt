//! The producers of a history's values.
ghost use Rattle.std.specs.Prelude.{◌≡◌, IfOk, filter_map};
ghost use Rattle.history_merge.specs.Initial.{Contents};
ghost use Rattle.verdicts.specs.Selection.{contents_of};
ghost use Rattle.conditions.specs.Conditions.{producer_of};
ghost use Rattle.conditions.specs.Inner.Producers.{AreProducers, produced_by};

use crate::producer::Producer;
use event_records::ORIGIN;
use history_merge::{History, Operation, PackedOperation};
use std::alloc::{AllocError, Global};

/// A value and its producer.
#[derive(Clone, Copy)]
pub(crate) struct Produced {
    value: u64,
    pub(crate) producer: Producer,
}

/// Each enqueued value and its producer, sorted by value.
#[derive(Drop)]
pub(crate) struct Producers {
    by_value: Vec<Produced>,
}

impl Producers {
    /// Lists the producers of a history's values. Takes O(n log n) time for n enqueues and initial values.
    pub(crate) fn new(alloc: Global, history: &History) -> Result<Producers, AllocError>
        ensures { IfOk result (λ producers. AreProducers (contents_of history.now) producers.by_value.items) }
    {
        let mut by_value = all_produced(alloc, history.by_time())?;
        by_value.sort_unstable_by_key(|produced| produced.value);
        Ok(Producers { by_value })
    }

    /// Returns the producer of a value, if it is enqueued.
    pub(crate) fn producer_of(&self, value: u64) -> Option<Producer>
        ensures { (whole : Contents) → AreProducers whole self.now.by_value.items → result ≡ producer_of whole value }
    {
        let by_value = self.by_value.as_slice();
        match by_value.binary_search_by_key(&value, |produced| produced.value) {
            Ok(place) => Some(by_value[place].producer),
            Err(_) => None,
        }
    }
}

/// Returns the value that an operation enqueues, successfully or not, with its producer.
pub(crate) fn produced_by(operation: Operation) -> Option<Produced>
    ensures { result ≡ produced_by operation }
{
    let value = operation.kind.enqueued_value()?;
    let producer = if operation.call < ORIGIN {
        Producer::Initial
    } else {
        Producer::Thread(operation.thread)
    };
    Some(Produced { value, producer })
}

/// Returns the values that operations enqueue, with their producers, in the order of the operations.
fn all_produced(alloc: Global, by_time: &[PackedOperation]) -> Result<Vec<Produced>, AllocError>
    ensures { IfOk result (λ all. all.items ≡ filter_map produced_by by_time.now) }
{
    let mut all = Vec::new(alloc);
    for operation in by_time {
        if let Some(produced) = produced_by(operation.unpack()) {
            all.push(produced)?;
        }
    }
    Ok(all)
}
