mod comparing;
mod completing;
mod histories;
mod pending_calls;
mod plain_completions;
mod plain_gaps;
mod plain_order;
mod plain_pairs;
mod plain_values;

use crate::tests::comparing::{Compared, compare, kind_of};
use crate::tests::histories::{
    MOST_OPERATIONS, Sort, covered_history, honest_history, seeded_history,
};
use empty_witness::{GapAnswer, gap_for};
use event_records::MAX_THREAD_OPERATIONS;
use history_merge::History;
use std::alloc::{AllocError, Global};
use std::process::Abort;
use std::test::Fail;
use value_match::{Matched, Matching, match_values};
use verdicts::{ViolationKind, claim, decide, verify};

/// The number of histories of each sort.
const HISTORIES: u32 = 100;

/// The maximum number of seeds for these histories. Some seeds give no operation an answer of their own.
const SEEDS: u64 = 300;

/// The minimum number of histories of each kind.
const ENOUGH: u32 = 15;

/// The number of histories with each answer.
#[derive(Clone, Copy, Debug, Default)]
struct Tally {
    legal: u32,
    fresh: u32,
    repeat: u32,
    order: u32,
    witness: u32,
}

impl Tally {
    fn count(&mut self, kind: Option<ViolationKind>) {
        match kind {
            None => self.legal = self.legal.saturating_add(1),
            Some(ViolationKind::VFresh) => self.fresh = self.fresh.saturating_add(1),
            Some(ViolationKind::VRepeat) => self.repeat = self.repeat.saturating_add(1),
            Some(ViolationKind::VOrd) => self.order = self.order.saturating_add(1),
            Some(ViolationKind::VWit) => self.witness = self.witness.saturating_add(1),
        }
    }
}

/// Compares the answers about the history of this seed, if an answer that the queue didn't give occurs in it.
fn compare_seed(rt: &impl AllocGlobal, seed: u64, sort: Sort) -> Result<Option<Compared>, Fail> {
    let Some(history) = seeded_history(rt.alloc(), seed, sort)? else {
        return Ok(None);
    };
    if history.operations().len() as u64 > MOST_OPERATIONS {
        return Err(Fail::from("too many operations"));
    }
    Ok(Some(compare(rt, &history)?))
}

/// Compares the answers about `HISTORIES` histories of this sort, and counts them by kind.
fn compare_all(rt: &(impl Abort + AllocGlobal), sort: Sort, tally: &mut Tally) -> Result<(), Fail> {
    let mut compared = 0u32;
    for seed in 0..SEEDS {
        if compared == HISTORIES {
            break;
        }
        if let Some((kind, difference)) = compare_seed(rt, seed, sort)? {
            assert!(rt; difference.is_none(), "{difference:?} of seed {seed}");
            tally.count(kind);
            compared = compared.saturating_add(1);
        }
    }
    assert!(rt; compared == HISTORIES, "{compared} histories");
    Ok(())
}

/// Compares histories with these shares of answers that the queue didn't give, of a queue with `first` initial
/// values, and counts them.
fn tally_of(rt: &(impl Abort + AllocGlobal), lies: &[u64], first: u8) -> Result<Tally, Fail> {
    let mut tally = Tally::default();
    for lies in lies {
        compare_all(rt, Sort { lies: *lies, first }, &mut tally)?;
    }
    Ok(tally)
}

/// Returns whether there were enough histories of each kind.
fn are_enough(tally: Tally) -> bool {
    [
        tally.legal,
        tally.fresh,
        tally.repeat,
        tally.order,
        tally.witness,
    ]
    .iter()
    .all(|count| *count >= ENOUGH)
}

#[test]
fn sweeps_answer_as_plain_scans(rt: HostRuntime) -> Result<(), Fail> {
    let tally = tally_of(&rt, &[1, 2, 3, 4, 5], 0)?;
    assert!(rt; are_enough(tally), "{tally:?}");
    Ok(())
}

#[test]
fn sweeps_answer_as_plain_scans_behind_initial_values(rt: HostRuntime) -> Result<(), Fail> {
    let tally = tally_of(&rt, &[1, 2], 3)?;
    assert!(rt; are_enough(tally), "{tally:?}");
    Ok(())
}

/// The number of operations of a history, the kind of its violation if it has one, and whether the claim is true.
type Judged = (usize, Option<ViolationKind>, bool);

fn judged(alloc: Global, history: &History) -> Result<Judged, AllocError> {
    let verdict = decide(alloc, history)?;
    let claimed = claim(alloc, history, &verdict)?;
    let kind = kind_of(&claimed);
    Ok((
        history.operations().len(),
        kind,
        verify(alloc, history, &claimed)?,
    ))
}

/// Returns the result for the window of the first empty dequeue of a matching.
fn first_gap_in(alloc: Global, matching: &Matching) -> Result<GapAnswer, Fail> {
    let empties = matching.empties();
    if empties.len() == 0 {
        return Err(Fail::from("no empty answer"));
    }
    Ok(gap_for(alloc, matching, empties.get(0))?)
}

/// Returns whether there is a gap for a history's first empty dequeue.
fn has_gap(alloc: Global, history: &History) -> Result<bool, Fail> {
    match match_values(alloc, history)? {
        Matched::Clear(matching) => match first_gap_in(alloc, &matching)? {
            GapAnswer::Free(_) => Ok(true),
            GapAnswer::Covered(_) => Ok(false),
        },
        _ => Err(Fail::from("a value that was not there, or came twice")),
    }
}

#[test]
fn a_large_history_is_legal_and_its_claim_true(rt: HostRuntime) -> Result<(), Fail> {
    let history = honest_history(rt.alloc(), 0, MAX_THREAD_OPERATIONS)?;
    assert!(rt; judged(rt.alloc(), &history)? == (400_000, None, true));
    Ok(())
}

#[test]
fn a_gap_of_a_large_history_is_found(rt: HostRuntime) -> Result<(), Fail> {
    let history = honest_history(rt.alloc(), 2, MAX_THREAD_OPERATIONS)?;
    assert!(rt; has_gap(rt.alloc(), &history)?);
    Ok(())
}

#[test]
fn a_large_cover_is_found_and_claimed(rt: HostRuntime) -> Result<(), Fail> {
    let history = covered_history(rt.alloc(), 40_000)?;
    assert!(rt; !has_gap(rt.alloc(), &history)?);
    assert!(rt; judged(rt.alloc(), &history)? == (80_000, Some(ViolationKind::VWit), true));
    Ok(())
}
