//! Producers by rank, and those of a history.
ghost use Rattle.std.specs.Prelude.{◌≡◌, ◌<◌, ◌≤◌, ◌++◌, ◌∷◌, [], List, length};
ghost use Rattle.event_records.specs.declared.limits.TheConstants.{MAX_EVENTS};
ghost use Rattle.history_merge.specs.declared.operation.Operation.{Operation};
ghost use Rattle.conditions.specs.Inner.Sharing.{AreMarked, rank_of, ranked};

use crate::producer::Producer;
use event_records::MAX_THREADS;
use history_merge::{OpId, Operation, Operations};

/// The number of producers: the initial values, and the threads.
pub(crate) const PRODUCERS: usize = MAX_THREADS + 1;

/// Returns the producer of this rank: the initial values first, and then the threads by number.
pub(crate) fn ranked(rank: usize) -> Producer
    requires { rank < PRODUCERS }
    ensures { result ≡ ranked rank }
{
    if rank == 0 {
        Producer::Initial
    } else {
        Producer::Thread((rank - 1) as u8)
    }
}

/// Returns the rank of a producer.
pub(crate) fn rank_of(producer: Producer) -> usize
    ensures { result ≡ rank_of producer }
{
    match producer {
        Producer::Initial => 0,
        Producer::Thread(thread) => usize::from(thread) + 1,
    }
}

/// Marks the rank of the operation's thread if the operation is an enqueue.
fn mark(used: &mut [bool], operation: Operation)
    requires { length used.old ≡ PRODUCERS }
    ensures { (seen : List Operation) → AreMarked seen used.old → AreMarked (seen ++ operation ∷ []) used.new }
{
    if operation.kind.enqueued_value().is_some() {
        let rank = usize::from(operation.thread) + 1;
        if rank < PRODUCERS {
            used[rank] = true;
        }
    }
}

/// Returns the marks of a history without operations.
fn no_marks() -> [bool; PRODUCERS]
    ensures { AreMarked [] result }
{
    let mut used = [false; PRODUCERS];
    used[0] = true;
    used
}

/// Marks the ranks of the producers that a history with these operations has.
pub(crate) fn marked(operations: &Operations<'_>) -> [bool; PRODUCERS]
    requires { length operations.now ≤ MAX_EVENTS }
    ensures { AreMarked operations.now result }
{
    let mut used = no_marks();
    for place in 0..operations.len() {
        if let Some(operation) = operations.get(OpId::new(place as u32)) {
            mark(&mut used, operation);
        }
    }
    used
}
