ghost use Rattle.std.specs.Prelude.{◌≡◌, ◌<◌, ◌≤◌, drop, length, map, slice_index_or, take};
ghost use Rattle.value_match.specs.Inner.HistoryPlaces.{history_place};

use crate::history_places::history_place;
use history_merge::OpId;
use std::marker::Model;

/// Places of operations of a history, seen as the list of them.
///
/// Borrows a list of the history's matching.
#[derive(Drop)]
pub struct Places<'a> {
    initial_count: usize,
    timeline: &'a [OpId],
}

impl<'a> Model for Places<'a> {
    ghost use Rattle.std.specs.Prelude.{ℕ, List, map};
    ghost use Rattle.value_match.specs.Inner.HistoryPlaces.{history_place};

    ghost Value = { List ℕ };

    ghost view = { λ a. map (history_place a.initial_count) a.timeline.now };
}

impl<'a> Places<'a> {
    /// Makes places from those of a timeline that begins with `initial_count` initial values.
    pub(crate) fn new(initial_count: usize, timeline: &'a [OpId]) -> Places<'a>
        ensures { result ≡ map (history_place initial_count) timeline.now }
    {
        Places {
            initial_count,
            timeline,
        }
    }

    /// Returns the number of places.
    #[inline(always)]
    pub fn len(&self) -> usize
        ensures { result ≡ length self.now }
    {
        self.timeline.len()
    }

    /// Returns the place at index `place` of the list.
    #[inline(always)]
    pub fn get(&self, place: usize) -> OpId
        requires { place < length self.now }
        ensures { result ≡ slice_index_or self.now place result }
    {
        history_place(self.initial_count, self.timeline[place])
    }

    /// Returns the places before index `place` of the list, and the others.
    pub fn split_at(&self, place: usize) -> (Places<'a>, Places<'a>)
        requires { place ≤ length self.now }
        ensures before { result.0 ≡ take place self.now }
        ensures others { result.1 ≡ drop place self.now }
    {
        let (before, others) = self.timeline.split_at(place);
        (
            Places::new(self.initial_count, before),
            Places::new(self.initial_count, others),
        )
    }
}
