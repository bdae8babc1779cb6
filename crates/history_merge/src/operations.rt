ghost use Rattle.std.specs.Prelude.{◌≡◌, ◌≤◌, ◌^◌, All, length, map, slice_get};
ghost use Rattle.event_records.specs.declared.limits.TheConstants.{ORIGIN};
ghost use Rattle.std.specs.Iterator.{YieldsFirst, item_count};
ghost use Rattle.history_merge.specs.Inner.Timeline.{earlier_by};

use crate::operation::{OpId, Operation};
use crate::packed::PackedOperation;
use event_records::ORIGIN;
use std::iter::{ExactSizeIterator, FusedIterator};
use std::marker::Model;

/// An iterator over the operations of a history by their tickets, in the order of their calls; seen as the list of
/// those that are left.
///
/// Borrows them from a history, which keeps each at the times of its tickets.
#[derive(Debug, Drop)]
pub struct Operations<'a> {
    later: &'a [PackedOperation],
}

impl<'a> Model for Operations<'a> {
    ghost use Rattle.std.specs.Prelude.{◌≤◌, All, List, map};
    ghost use Rattle.event_records.specs.declared.limits.TheConstants.{ORIGIN};
    ghost use Rattle.history_merge.specs.declared.operation.Operation.{Operation};
    ghost use Rattle.history_merge.specs.Inner.Timeline.{earlier_by};

    ghost Value = { List Operation };

    ghost view = { λ it. map (earlier_by ORIGIN) it.later.now };

    ghost invariant = { λ it. All (λ o. (ORIGIN ≤ o.call) × (ORIGIN ≤ o.ret)) it.later.now };
}

impl<'a> Operations<'a> {
    /// Makes the operations whose tickets have these times.
    pub(crate) fn new(later: &'a [PackedOperation]) -> Operations<'a>
        requires { All (λ o. (ORIGIN ≤ o.call) × (ORIGIN ≤ o.ret)) later.now }
        ensures { result ≡ map (earlier_by ORIGIN) later.now }
    {
        Operations { later }
    }

    /// Returns an iterator over the operations that are left.
    #[inline(always)]
    pub fn iter(&self) -> Operations<'a>
        ensures { result ≡ self.now }
    {
        Operations::new(self.later)
    }

    /// Returns the number of operations. Memory has no room for more than 2^62.
    #[inline(always)]
    pub fn len(&self) -> usize
        ensures exact { result ≡ length self.now }
        ensures few { result ≤ 2 ^ 62 }
    {
        self.later.len()
    }

    /// Returns the operation at this place, if there is one.
    #[inline(always)]
    pub fn get(&self, place: OpId) -> Option<Operation>
        ensures { result ≡ slice_get self.now place }
    {
        match self.later.get(place.place()) {
            Some(operation) => Some(earlier(operation.unpack())),
            None => None,
        }
    }
}

impl<'a> Iterator for Operations<'a> {
    type Item = Operation;

    ghost next_gives = { YieldsFirst (λ rest. rest) };

    ghost remaining = { item_count (λ rest. rest) };

    #[inline(always)]
    fn next(&mut self) -> Option<Operation> {
        let (first, others) = self.later.split_first()?;
        self.later = others;
        Some(earlier(first.unpack()))
    }

    fn size_hint(&self) -> (usize, Option<usize>) {
        (self.later.len(), Some(self.later.len()))
    }
}

impl<'a> ExactSizeIterator for Operations<'a> {
    fn len(&self) -> usize {
        self.later.len()
    }
}

impl<'a> FusedIterator for Operations<'a> {}

/// Returns the operation by its tickets, from that by times.
#[inline(always)]
pub(crate) fn earlier(operation: Operation) -> Operation
    requires { (ORIGIN ≤ operation.call) × (ORIGIN ≤ operation.ret) }
    ensures { result ≡ earlier_by ORIGIN operation }
{
    Operation {
        call: operation.call - ORIGIN,
        ret: operation.ret - ORIGIN,
        ..operation
    }
}
