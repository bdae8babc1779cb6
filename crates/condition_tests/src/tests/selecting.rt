//! The operations of a selection.

use super::small_histories::{INITIAL_LAST, NEVER_ENQUEUED, OVERTAKING, Row, history_of};
use conditions::{Emptiness, Producer, selection, without_empties};
use history_merge::History;
use std::alloc::{AllocError, Global};
use std::test::Fail;

/// Returns the number of initial values, and then the call tickets of the operations.
fn shown(alloc: Global, history: &History) -> Result<Vec<u64>, AllocError> {
    let mut numbers = Vec::new(alloc);
    numbers.push(history.initial().len() as u64)?;
    for operation in history.operations().iter() {
        numbers.push(operation.call)?;
    }
    Ok(numbers)
}

/// A selection of a history: that of a producer, with or without the empty dequeues, or the history without its empty
/// dequeues.
type Wanted = Option<(Producer, Emptiness)>;

fn selected(alloc: Global, rows: &[Row], wanted: Wanted) -> Result<Vec<u64>, Fail> {
    let history = history_of(alloc, &[3], rows)?;
    let part = match wanted {
        Some((producer, emptiness)) => selection(alloc, &history, producer, emptiness)?,
        None => without_empties(alloc, &history)?,
    };
    Ok(shown(alloc, &part)?)
}

/// Histories, selections, and the numbers that `shown` returns.
static SELECTED: [(&[Row], Wanted, &[u64]); 6] = [
    (INITIAL_LAST, None, &[1, 0, 2, 4]),
    (
        INITIAL_LAST,
        Some((Producer::Initial, Emptiness::Strict)),
        &[1, 4, 6],
    ),
    (
        INITIAL_LAST,
        Some((Producer::Thread(0), Emptiness::Strict)),
        &[0, 0, 2, 6],
    ),
    (
        INITIAL_LAST,
        Some((Producer::Thread(0), Emptiness::Weak)),
        &[0, 0, 2],
    ),
    (
        OVERTAKING,
        Some((Producer::Thread(1), Emptiness::Strict)),
        &[0, 2, 4],
    ),
    // nobody enqueued 9, and thread 4 enqueues nothing
    (
        NEVER_ENQUEUED,
        Some((Producer::Thread(4), Emptiness::Strict)),
        &[0, 2],
    ),
];

#[test]
fn selects_the_values_of_a_producer(rt: HostRuntime) -> Result<(), Fail> {
    for (rows, wanted, numbers) in &SELECTED {
        let found = selected(rt.alloc(), rows, *wanted)?;
        assert!(rt;
            found.as_slice() == *numbers,
            "{rows:?} {wanted:?} {found:?}"
        );
    }
    Ok(())
}
