//! The selections of all producers of a history, by the places of their operations.
ghost use Rattle.std.specs.Prelude.{◌≡◌, IfOk};
ghost use Rattle.history_merge.specs.Legal.{ArePlacesOf};
ghost use Rattle.history_merge.specs.Operations.{operations_of};
ghost use Rattle.verdicts.specs.Selection.{contents_of};
ghost use Rattle.conditions.specs.declared.producer.Emptiness.{Emptiness};
ghost use Rattle.conditions.specs.Conditions.{selection_of};
ghost use Rattle.conditions.specs.Inner.Parts.{IsPart, initial_of};
ghost use Rattle.conditions.specs.Inner.Sharing.{AreSharedOut};

use crate::buckets::{Bucket, share_out};
use crate::part::{Part, part_of};
use crate::producer::{Emptiness, Producer};
use crate::ranks::{PRODUCERS, marked};
use history_merge::{History, OpId};
use std::alloc::{AllocError, Global};

/// The places of the selections, by the rank of their producers.
#[derive(Drop)]
pub(crate) struct Selections {
    /// Whether the history has the producer of this rank.
    pub(crate) used: [bool; PRODUCERS],
    /// The places of the selection's operations, if the history has its producer.
    pub(crate) buckets: Vec<Bucket>,
}

/// Shares out the operations of a history in one pass.
pub(crate) fn selections_of(
    alloc: Global,
    history: &History,
    emptiness: Emptiness,
) -> Result<Selections, AllocError>
    ensures { IfOk result
        (λ shared. AreSharedOut emptiness (contents_of history.now) shared.used shared.buckets.items) }
{
    let used = marked(&history.operations());
    let buckets = share_out(alloc, history, emptiness, &used)?;
    Ok(Selections { used, buckets })
}

/// Returns the initial values of a producer's selection.
pub(crate) fn initial_of(
    alloc: Global,
    initial: &[u64],
    producer: Producer,
) -> Result<Vec<u64>, AllocError>
    ensures { IfOk result (λ own. own.items ≡ initial_of producer initial.now) }
{
    match producer {
        Producer::Initial => Vec::from_slice(alloc, initial),
        Producer::Thread(_) => Ok(Vec::new(alloc)),
    }
}

/// Returns a producer's selection, whose operations have these places.
pub(crate) fn part_at(
    alloc: Global,
    history: &History,
    producer: Producer,
    places: &[OpId],
) -> Result<Part, AllocError>
    requires { (emptiness : Emptiness) × ArePlacesOf (operations_of history.now.events) places.now
        (selection_of emptiness producer (contents_of history.now)).operations }
    ensures { IfOk result (λ part. (emptiness : Emptiness)
        → ArePlacesOf (operations_of history.now.events) places.now
        (selection_of emptiness producer (contents_of history.now)).operations
        → IsPart history.now (selection_of emptiness producer (contents_of history.now)) part) }
{
    let initial = initial_of(alloc, history.initial(), producer)?;
    let copied = Vec::from_slice(alloc, places)?;
    part_of(alloc, history, initial, copied)
}
