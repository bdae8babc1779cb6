ghost use Rattle.std.specs.Prelude.{◌≡◌, ◌<◌, ◌≤◌, All, IfSome, drop, length, map, slice_index_or, take};
ghost use Rattle.value_match.specs.Inner.Accepted.{HasPlaces, maybe_operation_at, history_value, value_at};

use crate::history_places::{history_source, maybe_history_place};
use crate::life::{Life, MatchedValue};
use crate::maybe_place::MaybePlace;
use history_merge::{OpId, Operation, PackedOperation};
use std::marker::Model;

/// The places of a successful enqueue and of its value's dequeue, if there is one.
#[derive(Clone, Copy)]
pub(crate) struct Pair {
    pub(crate) enqueue: u32,
    pub(crate) dequeue: MaybePlace,
}

/// The successfully enqueued values, seen as the list of them.
///
/// Borrows the history's operations, and a word for each value.
#[derive(Drop)]
pub struct Values<'a> {
    initial_count: usize,
    timeline: &'a [PackedOperation],
    pairs: &'a [Pair],
}

impl<'a> Model for Values<'a> {
    ghost use Rattle.std.specs.Prelude.{List, All, map};
    ghost use Rattle.value_match.specs.declared.life.MatchedValue.{MatchedValue};
    ghost use Rattle.value_match.specs.Inner.Accepted.{HasPlaces, history_value, value_at};

    ghost Value = { List MatchedValue };

    ghost view = { λ v. map (history_value v.initial_count v.timeline.now) v.pairs.now };

    ghost invariant = { λ v. All (HasPlaces v.timeline.now) (map (value_at v.timeline.now) v.pairs.now) };
}

impl<'a> Values<'a> {
    /// Makes the values whose operations have these places in a timeline that begins with `initial_count` initial
    /// values.
    pub(crate) fn new(
        initial_count: usize,
        timeline: &'a [PackedOperation],
        pairs: &'a [Pair],
    ) -> Values<'a>
        requires { All (HasPlaces timeline.now) (map (value_at timeline.now) pairs.now) }
        ensures { result ≡ map (history_value initial_count timeline.now) pairs.now }
    {
        Values {
            initial_count,
            timeline,
            pairs,
        }
    }

    /// Returns the number of values.
    #[inline(always)]
    pub fn len(&self) -> usize
        ensures { result ≡ length self.now }
    {
        self.pairs.len()
    }

    /// Returns the value at index `place`.
    #[inline(always)]
    pub fn get(&self, place: usize) -> MatchedValue
        requires { place < length self.now }
        ensures { result ≡ slice_index_or self.now place result }
    {
        let pairs = self.pairs;
        if place >= pairs.len() {
            unreachable!("a place of a value is that of a pair");
        }
        value_of(self.initial_count, self.timeline, pairs[place])
    }

    /// Returns the values before `place`, and the others.
    pub fn split_at(&self, place: usize) -> (Values<'a>, Values<'a>)
        requires { place ≤ length self.now }
        ensures before { result.0 ≡ take place self.now }
        ensures others { result.1 ≡ drop place self.now }
    {
        let pairs = self.pairs;
        if place > pairs.len() {
            unreachable!("a place of a value is that of a pair");
        }
        let (before, others) = pairs.split_at(place);
        (
            Values::new(self.initial_count, self.timeline, before),
            Values::new(self.initial_count, self.timeline, others),
        )
    }
}

/// Returns the value whose operations have these places in a timeline.
#[inline(always)]
fn value_of(initial_count: usize, timeline: &[PackedOperation], pair: Pair) -> MatchedValue
    requires enqueue { pair.enqueue < length timeline.now }
    requires dequeue { IfSome pair.dequeue (λ p. p < length timeline.now) }
    ensures { result ≡ history_value initial_count timeline.now pair }
{
    MatchedValue {
        life: Life {
            enqueue: timeline[pair.enqueue as usize].unpack(),
            dequeue: maybe_operation(timeline, pair.dequeue),
        },
        source: history_source(initial_count, OpId::new(pair.enqueue)),
        dequeue: maybe_history_place(initial_count, pair.dequeue.id()),
    }
}

#[inline(always)]
fn maybe_operation(operations: &[PackedOperation], place: MaybePlace) -> Option<Operation>
    requires { IfSome place (λ p. p < length operations.now) }
    ensures { result ≡ maybe_operation_at operations.now place }
{
    match place.get() {
        Some(place) => Some(operations[place].unpack()),
        None => None,
    }
}
