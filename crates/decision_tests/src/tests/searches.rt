//! The results of the searches for values that overtake others and for covered empty dequeues.
use super::small_histories::{
    DEQUEUED_LATER, HIDDEN, INITIAL, NEVER_EMPTY, ONCE_EMPTY, OVERLAPPING, OVERTAKEN, Row,
    history_behind, matching_of, number_of,
};
use empty_witness::{GapAnswer, WitnessAnswer, find_witness, gap_for};
use history_merge::OpKind::{Dequeue, DequeueEmpty, Enqueue};
use order_violation::{OrderPair, find_order};
use parallel_finders::{
    MAX_PIECES, find_order_par, find_witness_par, order_in_pieces, witness_in_pieces,
};
use std::alloc::{AllocError, Global};
use std::test::Fail;
use std::thread::Threads;
use value_match::{CoverStep, Matching};

/// A pair by its numbers: the enqueues of a and b, the dequeue of b, and that of a if there is one.
type Pair = (usize, usize, usize, Option<usize>);

/// A value of a cover by its numbers: its enqueue, and its dequeue if there is one.
type Step = (usize, Option<usize>);

/// The gaps of all empty dequeues, or the place of one and the values that cover it.
type Windows<'a> = Result<&'a [u64], (usize, &'a [Step])>;

fn is_pair(found: Option<OrderPair>, wanted: Option<Pair>) -> bool {
    match found {
        None => wanted.is_none(),
        Some(pair) => {
            let deq_a = pair.deq_a.map(|id| id.place());
            wanted
                == Some((
                    number_of(pair.enq_a),
                    number_of(pair.enq_b),
                    pair.deq_b.place(),
                    deq_a,
                ))
        }
    }
}

fn is_cover(cover: &[CoverStep], wanted: &[Step]) -> bool {
    if cover.len() != wanted.len() {
        return false;
    }
    for (step, wanted) in cover.iter().zip(wanted) {
        if (number_of(step.source), step.dequeue.map(|id| id.place())) != *wanted {
            return false;
        }
    }
    true
}

fn are_windows(found: &WitnessAnswer, wanted: Windows) -> bool {
    match (found, wanted) {
        (WitnessAnswer::Gaps(gaps), Ok(free)) => gaps.as_slice() == free,
        (WitnessAnswer::Covered { empty, cover }, Err((place, steps))) => {
            empty.place() == place && is_cover(cover.as_slice(), steps)
        }
        _ => false,
    }
}

/// A way to search.
#[derive(Clone, Copy, Debug)]
enum Way {
    Alone,
    InPieces(usize),
    /// In up to the maximum number of pieces; the search chooses.
    Chosen,
}

/// All ways.
const WAYS: [Way; 5] = [
    Way::Alone,
    Way::InPieces(1),
    Way::InPieces(2),
    Way::InPieces(64),
    Way::Chosen,
];

/// Returns whether the search for a pair finds this one.
fn finds_pair<R: AllocGlobal + Threads + Sync>(
    rt: &R,
    matching: &Matching,
    way: Way,
    wanted: Option<Pair>,
) -> Result<bool, AllocError> {
    let found = match way {
        Way::Alone => find_order(rt.alloc(), matching)?,
        Way::InPieces(pieces) => order_in_pieces(rt, rt.alloc(), matching, pieces)?,
        Way::Chosen => find_order_par(rt, rt.alloc(), matching, MAX_PIECES)?,
    };
    Ok(is_pair(found, wanted))
}

/// Returns the result of the search of the windows.
fn witness_by<R: AllocGlobal + Threads + Sync>(
    rt: &R,
    matching: &Matching,
    way: Way,
) -> Result<WitnessAnswer, AllocError> {
    match way {
        Way::Alone => find_witness(rt.alloc(), matching),
        Way::InPieces(pieces) => witness_in_pieces(rt, rt.alloc(), matching, pieces),
        Way::Chosen => find_witness_par(rt, rt.alloc(), matching, MAX_PIECES),
    }
}

/// Returns whether both searches find these.
fn finds<R: AllocGlobal + Threads + Sync>(
    rt: &R,
    matching: &Matching,
    way: Way,
    pair: Option<Pair>,
    windows: Windows,
) -> Result<bool, AllocError> {
    let answer = witness_by(rt, matching, way)?;
    Ok(are_windows(&answer, windows) && finds_pair(rt, matching, way, pair)?)
}

/// Returns a way in which the searches don't find these, if there is one.
fn wrong_way<R: AllocGlobal + Threads + Sync>(
    rt: &R,
    initial: &[u64],
    rows: &[Row],
    pair: Option<Pair>,
    windows: Windows,
) -> Result<Option<Way>, Fail> {
    let history = history_behind(rt.alloc(), initial, rows)?;
    let matching = matching_of(rt.alloc(), &history)?;
    for way in WAYS {
        if !finds(rt, &matching, way, pair, windows)? {
            return Ok(Some(way));
        }
    }
    Ok(None)
}

/// An empty dequeue that two of three values cover.
const COVERED_BY_TWO: &[Row] = &[
    (0, 1, 0, Enqueue(1)),
    (2, 11, 1, DequeueEmpty),
    (3, 4, 0, Enqueue(2)),
    (5, 6, 0, Enqueue(3)),
    (7, 8, 0, Dequeue(1)),
    (9, 10, 0, Dequeue(2)),
    (12, 13, 0, Dequeue(3)),
];

/// Four empty dequeues, of which the first has a gap. Among the others, the third returns first.
const THRICE_COVERED: &[Row] = &[
    (0, 1, 3, DequeueEmpty),
    (2, 3, 0, Enqueue(1)),
    (4, 11, 1, DequeueEmpty),
    (5, 6, 2, DequeueEmpty),
    (7, 10, 3, DequeueEmpty),
];

/// Two pairs, of which the one of the later values comes first.
const TWO_PAIRS: &[Row] = &[
    (0, 1, 0, Enqueue(1)),
    (2, 3, 0, Enqueue(2)),
    (4, 5, 0, Enqueue(3)),
    (6, 7, 0, Enqueue(4)),
    (8, 9, 0, Dequeue(4)),
    (10, 11, 0, Dequeue(2)),
];

/// A value that overtakes two that are never dequeued. The first of these is named.
const TWO_OVERTAKEN: &[Row] = &[
    (0, 1, 0, Enqueue(5)),
    (2, 3, 0, Enqueue(6)),
    (4, 5, 0, Enqueue(7)),
    (6, 7, 0, Dequeue(7)),
];

/// Initial values, operations, the pair and the windows.
static FOUND: [(&[u64], &[Row], Option<Pair>, Windows<'static>); 14] = [
    (&[], OVERLAPPING, None, Ok(&[])),
    (&[], OVERTAKEN, Some((0, 1, 2, None)), Ok(&[])),
    (&[], DEQUEUED_LATER, Some((0, 1, 2, Some(3))), Ok(&[])),
    (&[], HIDDEN, None, Ok(&[])),
    (&[], TWO_PAIRS, Some((0, 3, 4, None)), Ok(&[])),
    (&[], TWO_OVERTAKEN, Some((0, 2, 3, None)), Ok(&[])),
    (
        &[],
        NEVER_EMPTY,
        None,
        Err((1, &[(0, Some(3)), (2, Some(4))])),
    ),
    (&[], ONCE_EMPTY, None, Ok(&[4])),
    (
        &[],
        COVERED_BY_TWO,
        None,
        Err((1, &[(0, Some(4)), (3, Some(6))])),
    ),
    (&[], THRICE_COVERED, None, Err((3, &[(1, None)]))),
    (
        &[5, 6],
        &[(0, 1, 0, Dequeue(6))],
        Some((INITIAL, INITIAL + 1, 0, None)),
        Ok(&[]),
    ),
    (&[5, 6], &[(0, 1, 0, Dequeue(5))], None, Ok(&[])),
    (
        &[5],
        &[
            (0, 1, 0, Dequeue(5)),
            (2, 3, 0, DequeueEmpty),
            (4, 5, 0, Enqueue(7)),
        ],
        None,
        Ok(&[2]),
    ),
    (
        &[5],
        &[(0, 1, 0, Enqueue(7)), (2, 3, 0, DequeueEmpty)],
        None,
        Err((1, &[(INITIAL, None)])),
    ),
];

#[test]
fn finds_pairs_and_covers_alone_and_in_pieces(rt: HostRuntime) -> Result<(), Fail> {
    for (initial, rows, pair, windows) in &FOUND {
        let wrong = wrong_way(&rt, initial, rows, *pair, *windows)?;
        assert!(rt; wrong.is_none(), "{wrong:?} of {rows:?}");
    }
    Ok(())
}

/// Returns the result for the window of the first empty dequeue.
fn first_answer(alloc: Global, matching: &Matching) -> Result<Option<GapAnswer>, AllocError> {
    let empties = matching.empties();
    if empties.len() == 0 {
        return Ok(None);
    }
    Ok(Some(gap_for(alloc, matching, empties.get(0))?))
}

/// Returns whether the result for a window is this gap or cover.
fn is_window(found: &Option<GapAnswer>, wanted: Option<Result<u64, &[Step]>>) -> bool {
    match (found, wanted) {
        (None, None) => true,
        (Some(GapAnswer::Free(gap)), Some(Ok(free))) => *gap == free,
        (Some(GapAnswer::Covered(cover)), Some(Err(steps))) => is_cover(cover.as_slice(), steps),
        _ => false,
    }
}

/// Returns whether this is the result for the window of the first empty dequeue of these operations.
fn finds_window(
    alloc: Global,
    initial: &[u64],
    rows: &[Row],
    wanted: Option<Result<u64, &[Step]>>,
) -> Result<bool, Fail> {
    let history = history_behind(alloc, initial, rows)?;
    let matching = matching_of(alloc, &history)?;
    Ok(is_window(&first_answer(alloc, &matching)?, wanted))
}

/// Initial values, operations, and the result for the window of the first empty dequeue.
static WINDOWS: [(&[u64], &[Row], Option<Result<u64, &[Step]>>); 5] = [
    (&[], OVERLAPPING, None),
    (&[], ONCE_EMPTY, Some(Ok(4))),
    (&[], NEVER_EMPTY, Some(Err(&[(0, Some(3)), (2, Some(4))]))),
    (
        &[5, 6],
        &[
            (0, 1, 0, Dequeue(5)),
            (2, 5, 1, Dequeue(6)),
            (3, 4, 0, DequeueEmpty),
        ],
        Some(Ok(3)),
    ),
    (
        &[5, 6],
        &[(0, 1, 0, Dequeue(5)), (2, 3, 0, DequeueEmpty)],
        Some(Err(&[(INITIAL + 1, None)])),
    ),
];

#[test]
fn finds_what_is_in_a_window(rt: HostRuntime) -> Result<(), Fail> {
    for (initial, rows, wanted) in &WINDOWS {
        assert!(rt;
            finds_window(rt.alloc(), initial, rows, *wanted)?,
            "{rows:?}"
        );
    }
    Ok(())
}

/// Returns values that are enqueued and dequeued one after another, each followed by an empty dequeue. One of them
/// may stay.
fn rounds(alloc: Global, staying: u64) -> Result<Vec<Row>, AllocError> {
    let mut rows = Vec::new(alloc);
    for round in 0u64..5000 {
        let ticket = 6 * round;
        rows.push((ticket, ticket + 1, 0, Enqueue(round)))?;
        if round != staying {
            rows.push((ticket + 2, ticket + 3, 0, Dequeue(round)))?;
        }
        rows.push((ticket + 4, ticket + 5, 0, DequeueEmpty))?;
    }
    Ok(rows)
}

/// Returns the gap of each empty dequeue of the rounds, if no value stays: that of its call.
fn round_gaps(alloc: Global) -> Result<Vec<u64>, AllocError> {
    (0..5000u64).map(|round| 6 * round + 4).collect(alloc)
}

#[test]
fn finds_the_gaps_of_many_rounds(rt: HostRuntime) -> Result<(), Fail> {
    let rows = rounds(rt.alloc(), 5000)?;
    let gaps = round_gaps(rt.alloc())?;
    let wrong = wrong_way(&rt, &[], &rows, None, Ok(&gaps))?;
    assert!(rt; wrong.is_none(), "{wrong:?}");
    Ok(())
}

#[test]
fn finds_the_one_value_that_stays(rt: HostRuntime) -> Result<(), Fail> {
    let rows = rounds(rt.alloc(), 3000)?;
    let pair = (9000, 9002, 9003, None);
    let wrong = wrong_way(&rt, &[], &rows, Some(pair), Err((9001, &[(9000, None)])))?;
    assert!(rt; wrong.is_none(), "{wrong:?}");
    Ok(())
}
