//! Places of operations, by the producers to whose selections the operations belong.
ghost use Rattle.std.specs.Prelude.{◌≡◌, ◌<◌, ◌++◌, ◌∷◌, ℕ, [], IfOk, OnOk, false, length, nat_eq};
ghost use Rattle.std.specs.Prelude.{slice_index_or, true, if◌then◌else◌};
ghost use Rattle.history_merge.specs.Operations.{operations_of};
ghost use Rattle.verdicts.specs.Selection.{contents_of};
ghost use Rattle.conditions.specs.Inner.Sharing.{AreMarked, AreSharedOut, IsSharedOut};

use crate::producer::Emptiness;
use crate::ranks::{PRODUCERS, rank_of};
use crate::search::ProducerSearch;
use crate::sharing::{Share, share_of};
use history_merge::{History, OpId};
use std::alloc::{AllocError, Global};
use std::marker::Model;

/// Places of operations, seen as the list of them.
#[derive(Drop)]
pub(crate) struct Bucket {
    places: Vec<OpId>,
}

impl Model for Bucket {
    ghost use Rattle.std.specs.Prelude.{ℕ, List};

    ghost Value = { List ℕ };

    ghost view = { λ b. b.places.items };
}

impl Bucket {
    fn new(alloc: Global) -> Bucket
        ensures { result ≡ [] }
    {
        Bucket {
            places: Vec::new(alloc),
        }
    }

    fn push(&mut self, place: OpId) -> Result<(), AllocError>
        ensures { OnOk result (self.new ≡ self.old ++ place ∷ []) }
    {
        self.places.push(place)?;
        Ok(())
    }

    pub(crate) fn as_slice(&self) -> &[OpId]
        ensures { result.now ≡ self.now }
    {
        self.places.as_slice()
    }
}

/// Returns an empty bucket for each producer.
fn empty_buckets(alloc: Global) -> Result<Vec<Bucket>, AllocError>
    ensures sized { IfOk result (λ buckets. length buckets.items ≡ PRODUCERS) }
    ensures empty { IfOk result (λ buckets. (k : ℕ) → k < PRODUCERS → slice_index_or buckets.items k [] ≡ []) }
{
    let mut buckets = Vec::with_capacity(alloc, PRODUCERS)?;
    for _rank in 0..PRODUCERS {
        buckets.push(Bucket::new(alloc))?;
    }
    Ok(buckets)
}

/// Adds the place to one bucket.
fn push_to(buckets: &mut Vec<Bucket>, rank: usize, place: OpId) -> Result<(), AllocError>
    ensures sized { OnOk result (length buckets.new.items ≡ length buckets.old.items) }
    ensures pushed { OnOk result ((k : ℕ) → k < length buckets.old.items → slice_index_or buckets.new.items k []
        ≡ slice_index_or buckets.old.items k [] ++ (if nat_eq k rank then place ∷ [] else [])) }
{
    if rank < buckets.len() {
        buckets[rank].push(place)?;
    }
    Ok(())
}

/// Adds the place to each bucket in use.
fn push_to_used(buckets: &mut Vec<Bucket>, used: &[bool], place: OpId) -> Result<(), AllocError>
    requires { length used.now ≡ length buckets.old.items }
    ensures sized { OnOk result (length buckets.new.items ≡ length buckets.old.items) }
    ensures pushed { OnOk result ((k : ℕ) → k < length buckets.old.items → slice_index_or used.now k false ≡ true
        → slice_index_or buckets.new.items k [] ≡ slice_index_or buckets.old.items k [] ++ place ∷ []) }
{
    for rank in 0..used.len() {
        if used[rank] {
            buckets[rank].push(place)?;
        }
    }
    Ok(())
}

/// Adds the place to the buckets of the producers in use to whose selections the operation belongs.
fn share_out_place(
    buckets: &mut Vec<Bucket>,
    used: &[bool],
    share: Share,
    place: OpId,
) -> Result<(), AllocError>
    requires { length used.now ≡ length buckets.old.items }
    ensures { OnOk result (IsSharedOut share used.now place buckets.old.items buckets.new.items) }
{
    match share {
        Share::Nobody => Ok(()),
        Share::Only(producer) => push_to(buckets, rank_of(producer), place),
        Share::Everybody => push_to_used(buckets, used, place),
    }
}

/// Returns the places of the selection of each producer in use.
pub(crate) fn share_out(
    alloc: Global,
    history: &History,
    emptiness: Emptiness,
    used: &[bool],
) -> Result<Vec<Bucket>, AllocError>
    requires { AreMarked (operations_of history.now.events) used.now }
    ensures { IfOk result (λ buckets. AreSharedOut emptiness (contents_of history.now) used.now buckets.items) }
{
    let operations = history.operations();
    let mut search = ProducerSearch::new(alloc, history)?;
    let mut buckets = empty_buckets(alloc)?;
    for place in 0..operations.len() {
        let id = OpId::new(place as u32);
        if let Some(operation) = operations.get(id) {
            let share = share_of(alloc, history, &mut search, emptiness, operation)?;
            share_out_place(&mut buckets, used, share, id)?;
        }
    }
    Ok(buckets)
}
