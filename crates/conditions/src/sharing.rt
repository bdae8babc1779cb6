//! The producers to whose selections operations belong.
ghost use Rattle.std.specs.Prelude.{◌≡◌, ℕ, IfOk, OnOk, Some, filter, slice_get};
ghost use Rattle.history_merge.specs.declared.operation.Operation.{Operation};
ghost use Rattle.history_merge.specs.Legal.{ArePlacesOf};
ghost use Rattle.history_merge.specs.Operations.{operations_of};
ghost use Rattle.verdicts.specs.Selection.{contents_of};
ghost use Rattle.conditions.specs.Inner.Producers.{KnowsProducers, goes_to, share_of, share_of_empty, share_of_value};

use crate::producer::{Emptiness, Producer};
use crate::search::ProducerSearch;
use history_merge::{History, OpId, OpKind, Operation};
use std::alloc::{AllocError, Global};

/// The producers to whose selections an operation belongs.
#[derive(Clone, Copy)]
pub(crate) enum Share {
    Nobody,
    Only(Producer),
    Everybody,
}

impl Share {
    /// Returns whether this producer is one of these.
    fn goes_to(self, producer: Producer) -> bool
        ensures { result ≡ goes_to producer self }
    {
        match self {
            Share::Nobody => false,
            Share::Only(own) => producer == own,
            Share::Everybody => true,
        }
    }
}

/// Returns the producers to whose selections the operations on a value belong, given the value's own producer.
fn share_of_value(producer: Option<Producer>) -> Share
    ensures { result ≡ share_of_value producer }
{
    match producer {
        Some(producer) => Share::Only(producer),
        None => Share::Everybody,
    }
}

/// Returns the producers to whose selections an empty dequeue belongs.
fn share_of_empty(emptiness: Emptiness) -> Share
    ensures { result ≡ share_of_empty emptiness }
{
    match emptiness {
        Emptiness::Strict => Share::Everybody,
        Emptiness::Weak => Share::Nobody,
    }
}

/// Returns the producers to whose selections the next operation belongs.
pub(crate) fn share_of(
    alloc: Global,
    history: &History,
    search: &mut ProducerSearch,
    emptiness: Emptiness,
    operation: Operation,
) -> Result<Share, AllocError>
    requires knows { KnowsProducers (contents_of history.now) search.old }
    requires among { (place : ℕ) × (slice_get (operations_of history.now.events) place ≡ Some operation) }
    ensures share { IfOk result (λ share. share ≡ share_of (contents_of history.now) emptiness operation.kind) }
    ensures knows { OnOk result (KnowsProducers (contents_of history.now) search.new) }
{
    search.note_next(history);
    match operation.kind {
        OpKind::Enqueue(_) | OpKind::EnqueueFailed(_) => {
            Ok(Share::Only(Producer::Thread(operation.thread)))
        }
        OpKind::Dequeue(value) => {
            let producer = search.producer_of(alloc, history, value)?;
            Ok(share_of_value(producer))
        }
        OpKind::DequeueEmpty => Ok(share_of_empty(emptiness)),
    }
}

/// Returns whether the next operation, that at `place`, belongs to the producer's selection.
fn is_selected(
    alloc: Global,
    history: &History,
    search: &mut ProducerSearch,
    place: OpId,
    emptiness: Emptiness,
    producer: Producer,
) -> Result<bool, AllocError>
    requires { KnowsProducers (contents_of history.now) search.old }
    ensures selected { IfOk result (λ selected. (o : Operation)
        → slice_get (operations_of history.now.events) place ≡ Some o
        → selected ≡ goes_to producer (share_of (contents_of history.now) emptiness o.kind)) }
    ensures knows { OnOk result (KnowsProducers (contents_of history.now) search.new) }
{
    match history.operations().get(place) {
        Some(operation) => {
            let share = share_of(alloc, history, search, emptiness, operation)?;
            Ok(share.goes_to(producer))
        }
        None => Ok(false),
    }
}

/// Returns the places of the operations that belong to the producer's selection.
pub(crate) fn places_selected(
    alloc: Global,
    history: &History,
    emptiness: Emptiness,
    producer: Producer,
) -> Result<Vec<OpId>, AllocError>
    ensures { IfOk result (λ places. ArePlacesOf (operations_of history.now.events) places.items
        (filter (λ o. goes_to producer (share_of (contents_of history.now) emptiness o.kind))
        (operations_of history.now.events))) }
{
    let mut search = ProducerSearch::new(alloc, history)?;
    let mut places = Vec::new(alloc);
    for place in 0..history.operations().len() {
        let id = OpId::new(place as u32);
        if is_selected(alloc, history, &mut search, id, emptiness, producer)? {
            places.push(id)?;
        }
    }
    Ok(places)
}
