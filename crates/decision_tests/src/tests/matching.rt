use super::small_histories::{
    HIDDEN, INITIAL, OF_THREE, OF_TWO, Row, are_rows, history_behind, is_row, matching_of,
    number_of,
};
use event_records::ORIGIN;
use history_merge::OpId;
use history_merge::OpKind::{Dequeue, DequeueEmpty, Enqueue, EnqueueFailed};
use std::alloc::Global;
use std::test::Fail;
use value_match::{
    LongestTable, Matched, MatchedValue, Matching, NEVER, Places, Source, Values, Violation,
    match_values, ticket_of,
};

/// The places of the operations that a violation of the first two kinds names: the enqueue, and the dequeues.
type Named = (Option<usize>, usize, Option<usize>);

/// Returns the place of the enqueue, unless the value is an initial one.
fn enqueue_of(source: Source) -> Option<usize> {
    match source {
        Source::Enq(id) => Some(id.place()),
        Source::Initial(_) => None,
    }
}

fn place_of(id: Option<OpId>) -> Option<usize> {
    match id {
        Some(id) => Some(id.place()),
        None => None,
    }
}

/// Returns the operations that the violation names, if it is of the first two kinds.
fn named(matched: &Matched) -> Option<Named> {
    match matched {
        Matched::Fresh(Violation::Fresh { deq, enq }) => {
            Some((place_of(*enq), deq.place(), None))
        }
        Matched::Repeat(Violation::Repeat { enq, first, second }) => {
            Some((enqueue_of(*enq), first.place(), Some(second.place())))
        }
        _ => None,
    }
}

/// Returns the operations that matching names.
fn named_of(alloc: Global, rows: &[Row]) -> Result<Option<Named>, Fail> {
    let history = history_behind(alloc, &[], rows)?;
    let matched = match_values(alloc, &history)?;
    Ok(named(&matched))
}

/// Histories with a violation of the first two kinds, or with neither.
static NAMED: [(&[Row], Option<Named>); 3] = [
    (
        &[(0, 1, 0, EnqueueFailed(7)), (2, 3, 0, Dequeue(7))],
        Some((Some(0), 1, None)),
    ),
    // the first of three dequeues by call returns last
    (
        &[
            (0, 1, 0, Enqueue(7)),
            (2, 7, 0, Dequeue(7)),
            (3, 4, 1, Dequeue(7)),
            (5, 6, 2, Dequeue(7)),
        ],
        Some((Some(0), 2, Some(3))),
    ),
    (HIDDEN, None),
];

#[test]
fn names_a_value_that_was_not_there_or_came_twice(rt: HostRuntime) -> Result<(), Fail> {
    for (rows, wanted) in &NAMED {
        assert!(rt; named_of(rt.alloc(), rows)? == *wanted, "{rows:?}");
    }
    Ok(())
}

/// An enqueued value by its numbers: its source, and its dequeue if there is one.
type Accepted = (usize, Option<usize>);

/// The parts of a history's matching.
struct Shown {
    initial: &'static [u64],
    rows: &'static [Row],
    /// The enqueues of the initial values, at their times.
    entered: &'static [Row],
    /// The enqueued values, by the numbers of their sources and the places of their dequeues.
    values: &'static [Accepted],
    /// The empty dequeues and the failed enqueues, by their places among the operations.
    empties: &'static [usize],
    failed: &'static [usize],
}

static SHOWN: [Shown; 4] = [
    Shown {
        initial: &[],
        rows: &[
            (0, 4, 0, Enqueue(7)),
            (1, 3, 1, Dequeue(7)),
            (2, 5, 2, Enqueue(9)),
            (6, 8, 0, EnqueueFailed(8)),
            (7, 9, 1, DequeueEmpty),
        ],
        entered: &[],
        values: &[(0, Some(1)), (2, None)],
        empties: &[4],
        failed: &[3],
    },
    Shown {
        initial: &[5],
        rows: &[
            (0, 1, 0, Dequeue(5)),
            (2, 3, 0, DequeueEmpty),
            (4, 5, 0, EnqueueFailed(8)),
        ],
        entered: &[(ORIGIN - 1, ORIGIN - 1, 0, Enqueue(5))],
        values: &[(INITIAL, Some(0))],
        empties: &[1],
        failed: &[2],
    },
    Shown {
        initial: &[5, 6],
        rows: OF_TWO,
        entered: &[
            (ORIGIN - 2, ORIGIN - 2, 0, Enqueue(5)),
            (ORIGIN - 1, ORIGIN - 1, 0, Enqueue(6)),
        ],
        values: &[(INITIAL, Some(0)), (INITIAL + 1, None), (1, None)],
        empties: &[3],
        failed: &[2],
    },
    Shown {
        initial: &[u64::MAX, 5, 0],
        rows: OF_THREE,
        entered: &[
            (ORIGIN - 3, ORIGIN - 3, 0, Enqueue(u64::MAX)),
            (ORIGIN - 2, ORIGIN - 2, 0, Enqueue(5)),
            (ORIGIN - 1, ORIGIN - 1, 0, Enqueue(0)),
        ],
        values: &[(INITIAL, Some(0)), (INITIAL + 1, None), (INITIAL + 2, None)],
        empties: &[],
        failed: &[1],
    },
];

/// Returns the row at the times of its tickets.
fn timed(row: &Row) -> Row {
    let (call, ret, thread, kind) = *row;
    (
        call.saturating_add(ORIGIN),
        ret.saturating_add(ORIGIN),
        thread,
        kind,
    )
}

/// Returns the ticket at which the enqueue of this source is called. Initial values are enqueued before ticket 0.
fn called_at(shown: &Shown, source: Source) -> Option<i64> {
    match source {
        Source::Enq(id) => i64::try_from(shown.rows.get(id.place())?.0).ok(),
        Source::Initial(place) => {
            let left = shown.initial.len().checked_sub(place)?;
            Some(-i64::from(u32::try_from(left).ok()?))
        }
    }
}

/// Returns whether the value is that of these numbers, with its operations at their times.
fn is_value(value: &MatchedValue, shown: &Shown, wanted: Accepted) -> bool {
    let (source, place) = wanted;
    let enqueue = match value.source {
        Source::Enq(id) => shown.rows.get(id.place()).map(timed),
        Source::Initial(place) => shown.entered.get(place).copied(),
    };
    let dequeue = place.and_then(|place| shown.rows.get(place)).map(timed);
    let call = value.life.enqueue_call();
    number_of(value.source) == source
        && call <= NEVER
        && Some(ticket_of(call)) == called_at(shown, value.source)
        && place_of(value.dequeue) == place
        && is_row(Some(value.life.enqueue), enqueue.as_ref())
        && is_row(value.life.dequeue, dequeue.as_ref())
}

/// Returns whether these are the enqueued values.
fn are_values(values: &Values, shown: &Shown) -> bool {
    if values.len() != shown.values.len() {
        return false;
    }
    for (place, wanted) in shown.values.iter().enumerate() {
        if !is_value(&values.get(place), shown, *wanted) {
            return false;
        }
    }
    true
}

/// Returns whether these are the places.
fn are_places(places: &Places, wanted: &[usize]) -> bool {
    if places.len() != wanted.len() {
        return false;
    }
    for (index, place) in wanted.iter().enumerate() {
        if places.get(index).place() != *place {
            return false;
        }
    }
    true
}

/// Returns the name of a wrong part of the matching, or none if all are right.
fn wrong_part(matching: &Matching, shown: &Shown) -> Option<&'static str> {
    if matching.initial() != shown.initial {
        Some("initial values")
    } else if !are_rows(&matching.operations(), shown.rows) {
        Some("operations")
    } else if !are_values(&matching.values(), shown) {
        Some("values")
    } else if !are_places(&matching.empties(), shown.empties) {
        Some("empty dequeues")
    } else if !are_places(&matching.failed(), shown.failed) {
        Some("failed enqueues")
    } else {
        None
    }
}

/// Returns the name of a wrong part of the history's matching, or none if all are right.
fn wrong_part_of(alloc: Global, shown: &Shown) -> Result<Option<&'static str>, Fail> {
    let history = history_behind(alloc, shown.initial, shown.rows)?;
    let matching = matching_of(alloc, &history)?;
    Ok(wrong_part(&matching, shown))
}

#[test]
fn a_matching_shows_its_history(rt: HostRuntime) -> Result<(), Fail> {
    for shown in &SHOWN {
        let wrong = wrong_part_of(rt.alloc(), shown)?;
        assert!(rt; wrong.is_none(), "{wrong:?}");
    }
    Ok(())
}

/// Four values, of which the last two enqueued stay.
const STAYING: &[Row] = &[
    (0, 2, 0, Enqueue(1)),
    (1, 4, 1, Enqueue(2)),
    (5, 8, 0, Enqueue(3)),
    (6, 10, 1, Enqueue(4)),
    (20, 21, 0, Dequeue(1)),
    (30, 31, 0, Dequeue(2)),
];

/// Limits, and the call of the enqueue of the value that stays longest among those whose enqueues returned before the
/// limit.
static LONGEST: [(u64, Option<u64>); 8] = [
    (0, None),
    (2, None),
    (3, Some(0)),
    (4, Some(0)),
    (5, Some(1)),
    (8, Some(1)),
    (9, Some(5)),
    (11, Some(5)),
];

/// Returns the ticket of the enqueue's call for the value that stays longest among those enqueued before this ticket.
fn longest_call(table: &LongestTable, limit: u64) -> Option<u64> {
    let longest = table.longest_before(limit.saturating_add(ORIGIN))?;
    longest.life.enqueue_call().checked_sub(ORIGIN)
}

/// Returns whether the table finds these among the four values.
fn are_longest(table: &LongestTable) -> bool {
    for (limit, call) in &LONGEST {
        if longest_call(table, *limit) != *call {
            return false;
        }
    }
    table.values().len() == 4
}

/// Returns whether the table of the four values finds them.
fn finds_longest(alloc: Global) -> Result<bool, Fail> {
    let history = history_behind(alloc, &[], STAYING)?;
    let matching = matching_of(alloc, &history)?;
    let table = LongestTable::new(alloc, matching.values())?;
    Ok(are_longest(&table))
}

#[test]
fn finds_the_longest_of_the_values_before_a_ticket(rt: HostRuntime) -> Result<(), Fail> {
    assert!(rt; finds_longest(rt.alloc())?);
    Ok(())
}
