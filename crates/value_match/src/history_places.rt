//! Translation from places in a timeline, which begins with the enqueues of the initial values, to places in the
//! history.
ghost use Rattle.std.specs.Prelude.{◌≡◌, option_map};
ghost use Rattle.value_match.specs.declared.violation.Violation.TheVariants.{Fresh, Repeat};
ghost use Rattle.value_match.specs.Inner.HistoryPlaces.{history_place, history_source};

use crate::fresh::FreshPlaces;
use crate::life::Source;
use crate::takers::RepeatPlaces;
use crate::violation::Violation;
use history_merge::OpId;

/// Returns the history's place of an operation of the timeline.
#[inline(always)]
pub(crate) fn history_place(initial_count: usize, place: OpId) -> OpId
    ensures { result ≡ history_place initial_count place }
{
    let place = place.number() as usize;
    OpId::new(place.saturating_sub(initial_count) as u32)
}

/// Returns the history's place of an optional operation of the timeline.
#[inline(always)]
pub(crate) fn maybe_history_place(initial_count: usize, place: Option<OpId>) -> Option<OpId>
    ensures { result ≡ option_map (history_place initial_count) place }
{
    place.map(|place| history_place(initial_count, place))
}

/// Returns the source of a value whose enqueue has this place in the timeline.
#[inline(always)]
pub(crate) fn history_source(initial_count: usize, enqueue: OpId) -> Source
    ensures { result ≡ history_source initial_count enqueue }
{
    if enqueue.place() < initial_count {
        Source::Initial(enqueue.place())
    } else {
        Source::Enq(history_place(initial_count, enqueue))
    }
}

/// Returns the violation that a phantom dequeue is.
pub(crate) fn fresh_violation(initial_count: usize, found: FreshPlaces) -> Violation
    ensures { result ≡ Fresh (history_place initial_count found.deq)
        (option_map (history_place initial_count) found.enq) }
{
    Violation::Fresh {
        deq: history_place(initial_count, found.deq),
        enq: maybe_history_place(initial_count, found.enq),
    }
}

/// Returns the violation that two dequeues of one value are.
pub(crate) fn repeat_violation(initial_count: usize, found: RepeatPlaces) -> Violation
    ensures { result ≡ Repeat (history_source initial_count found.enq) (history_place initial_count found.first)
        (history_place initial_count found.second) }
{
    Violation::Repeat {
        enq: history_source(initial_count, found.enq),
        first: history_place(initial_count, found.first),
        second: history_place(initial_count, found.second),
    }
}
