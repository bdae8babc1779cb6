//! Claims under weaker conditions.

use super::small_histories::{
    EACH_OVERTAKES, INITIAL_LAST, NOT_EMPTY, OVERTAKING, Row, history_of,
};
use conditions::{Emptiness, decide_local, verify_local, verify_weakly_empty};
use history_merge::Operation;
use std::alloc::Global;
use std::test::Fail;
use verdicts::{ClaimLine, ClaimLines, Claimed, Lines, Verdict, ViolationKind, verify};

/// Returns the operations at these places of the rows.
fn operations_at(alloc: Global, rows: &[Row], places: &[usize]) -> Result<Vec<Operation>, Fail> {
    let mut found = Vec::new(alloc);
    for place in places {
        let Some((thread, kind)) = rows.get(*place) else {
            return Err("no row at a place")?;
        };
        let call = 2 * *place as u64;
        found.push(Operation {
            call,
            ret: call + 1,
            thread: *thread,
            kind: *kind,
        })?;
    }
    Ok(found)
}

/// Returns the claim of these rows: a `YES`, or a `NO` of this kind.
fn claim_at(
    alloc: Global,
    rows: &[Row],
    kind: Option<ViolationKind>,
    places: &[usize],
) -> Result<Claimed, Fail> {
    let operations = operations_at(alloc, rows, places)?;
    let Some(kind) = kind else {
        return Ok(Claimed::Yes(Lines::from_vec(operations)));
    };
    let mut lines = Vec::new(alloc);
    for operation in operations.as_slice() {
        lines.push(ClaimLine::Op(*operation))?;
    }
    Ok(Claimed::No(kind, ClaimLines::from_vec(lines)))
}

/// A history, its condition (locally with these empty dequeues, or weak emptiness alone), a claim by its kind and
/// places, and whether the claim is evidence.
type Case = (
    &'static [u64],
    &'static [Row],
    Option<Emptiness>,
    Option<ViolationKind>,
    &'static [usize],
    bool,
);

const STRICT: Option<Emptiness> = Some(Emptiness::Strict);

const WEAK: Option<Emptiness> = Some(Emptiness::Weak);

const ORDER: Option<ViolationKind> = Some(ViolationKind::VOrd);

const WITNESS: Option<ViolationKind> = Some(ViolationKind::VWit);

static CLAIMS: [Case; 19] = [
    // a linearization of thread 0's values, and then one of thread 1's
    (&[], OVERTAKING, STRICT, None, &[0, 3, 1, 2], true),
    (&[], OVERTAKING, WEAK, None, &[0, 3, 1, 2], true),
    // the threads in the opposite order, all operations in one order, too few, too many
    (&[], OVERTAKING, STRICT, None, &[1, 2, 0, 3], false),
    (&[], OVERTAKING, STRICT, None, &[0, 1, 2, 3], false),
    (&[], OVERTAKING, STRICT, None, &[0, 3, 1], false),
    (&[], OVERTAKING, STRICT, None, &[0, 3], false),
    (&[], OVERTAKING, STRICT, None, &[0, 3, 1, 2, 2], false),
    (&[], OVERTAKING, STRICT, None, &[], false),
    // no thread's own values overtake each other
    (&[], OVERTAKING, STRICT, ORDER, &[0, 1, 2, 3], false),
    // the values of thread 1 overtake each other, and so do those of thread 2
    (&[], EACH_OVERTAKES, STRICT, ORDER, &[3, 4, 6, 7], true),
    (&[], EACH_OVERTAKES, STRICT, ORDER, &[1, 2, 5], true),
    // values of two threads
    (&[], EACH_OVERTAKES, STRICT, ORDER, &[1, 4, 6], false),
    // the empty dequeue is in both selections
    (&[3], INITIAL_LAST, STRICT, None, &[2, 3, 0, 1, 3], true),
    (&[3], INITIAL_LAST, STRICT, None, &[2, 0, 1, 3], false),
    (&[3], INITIAL_LAST, WEAK, None, &[2, 0, 1], true),
    (&[3], INITIAL_LAST, WEAK, None, &[2, 3, 0, 1, 3], false),
    // the empty dequeue alone
    (&[], NOT_EMPTY, None, None, &[0], true),
    (&[], NOT_EMPTY, None, None, &[0, 1], false),
    (&[], NOT_EMPTY, None, WITNESS, &[1, 0], false),
];

#[test]
fn verifies_under_weaker_conditions(rt: HostRuntime) -> Result<(), Fail> {
    let alloc = rt.alloc();
    for (initial, rows, local, kind, places, is_evidence) in &CLAIMS {
        let history = history_of(alloc, initial, rows)?;
        let claimed = claim_at(alloc, rows, *kind, places)?;
        let valid = match local {
            Some(emptiness) => verify_local(alloc, &history, *emptiness, &claimed)?,
            None => verify_weakly_empty(alloc, &history, &claimed)?,
        };
        assert!(rt; valid == *is_evidence, "{rows:?} {local:?} {claimed:?}");
    }
    Ok(())
}

/// Returns the places of a local verdict's linearizations, one after another, or none for a `NO`.
fn joined(alloc: Global, initial: &[u64], rows: &[Row]) -> Result<Vec<usize>, Fail> {
    let history = history_of(alloc, initial, rows)?;
    let verdict = decide_local(alloc, &history, Emptiness::Strict)?.into_verdict(alloc)?;
    let mut places = Vec::new(alloc);
    if let Verdict::Yes(order) = verdict {
        for id in order.as_slice() {
            places.push(id.place())?;
        }
    }
    Ok(places)
}

/// A history, and the places of the linearizations of its local verdict, or none for a `NO`.
static JOINED: [(&[u64], &[Row], &[usize]); 4] = [
    (&[], OVERTAKING, &[0, 3, 1, 2]),
    (&[3], INITIAL_LAST, &[2, 3, 0, 1, 3]),
    (&[], EACH_OVERTAKES, &[]),
    (&[], NOT_EMPTY, &[]),
];

#[test]
fn joins_the_linearizations_of_a_local_verdict(rt: HostRuntime) -> Result<(), Fail> {
    let alloc = rt.alloc();
    for (initial, rows, places) in &JOINED {
        let found = joined(alloc, initial, rows)?;
        assert!(rt; found.as_slice() == *places, "{rows:?} {found:?}");
    }
    Ok(())
}

#[test]
fn a_local_no_is_evidence_in_the_whole(rt: HostRuntime) -> Result<(), Fail> {
    let alloc = rt.alloc();
    let history = history_of(alloc, &[], EACH_OVERTAKES)?;
    let claimed = claim_at(alloc, EACH_OVERTAKES, ORDER, &[3, 4, 6, 7])?;
    assert!(rt; verify(alloc, &history, &claimed)?);
    Ok(())
}
