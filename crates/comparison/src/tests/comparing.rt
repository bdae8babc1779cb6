//! The answers about one history, compared with those of plain scans.

use crate::tests::plain_gaps::{PlainWitness, plain_cover, plain_gap, plain_witness};
use crate::tests::plain_order::plain_linearization;
use crate::tests::plain_pairs::plain_pair;
use crate::tests::plain_values::plain_values;
use empty_witness::{GapAnswer, WitnessAnswer, find_witness, gap_for};
use history_merge::{History, OpId};
use order_violation::{OrderPair, find_order};
use std::alloc::Global;
use std::test::Fail;
use value_match::{CoverStep, Matched, MatchedValue, Matching, Values, Violation, match_values};
use verdicts::{Claimed, Verdict, ViolationKind, claim, decide};

/// The kind of a history's violation, and the name of an answer that differs.
pub(crate) type Compared = (Option<ViolationKind>, Option<&'static str>);

/// Returns the kind of the claimed violation, if one is claimed.
pub(crate) fn kind_of(claimed: &Claimed) -> Option<ViolationKind> {
    match claimed {
        Claimed::Yes(_) => None,
        Claimed::No(kind, _) => Some(*kind),
    }
}

/// Returns the name of an answer about a history of this verdict that differs from that of plain scans, if one does.
fn difference(
    rt: &impl AllocGlobal,
    history: &History,
    verdict: &Verdict,
    kind: Option<ViolationKind>,
) -> Result<Option<&'static str>, Fail> {
    let unmatched = match match_values(rt.alloc(), history)? {
        Matched::Fresh(_) => ViolationKind::VFresh,
        Matched::Repeat(_) => ViolationKind::VRepeat,
        Matched::Clear(matching) => return difference_of_clear(rt, &matching, verdict),
    };
    Ok(if kind == Some(unmatched) {
        None
    } else {
        Some("kind")
    })
}

/// Returns the kind of a history's violation, if it has one, and the name of an answer that differs from that of
/// plain scans, if one does.
pub(crate) fn compare(rt: &impl AllocGlobal, history: &History) -> Result<Compared, Fail> {
    let verdict = decide(rt.alloc(), history)?;
    let kind = kind_of(&claim(rt.alloc(), history, &verdict)?);
    Ok((kind, difference(rt, history, &verdict, kind)?))
}

/// Returns the name of an answer about a matching that differs from that of plain scans, if one does.
fn difference_of_clear(
    rt: &impl AllocGlobal,
    matching: &Matching,
    verdict: &Verdict,
) -> Result<Option<&'static str>, Fail> {
    let values = plain_values(rt.alloc(), matching)?;
    difference_among(rt, matching, &values, verdict)
}

/// Does so, by the values that a plain scan finds.
fn difference_among(
    rt: &impl AllocGlobal,
    matching: &Matching,
    values: &[MatchedValue],
    verdict: &Verdict,
) -> Result<Option<&'static str>, Fail> {
    Ok(if !are_same_values(&matching.values(), values) {
        Some("values")
    } else if find_order(rt.alloc(), matching)? != plain_pair(values) {
        Some("pair")
    } else if !are_same_windows(rt.alloc(), matching, values)? {
        Some("windows")
    } else if !are_same_gaps(rt.alloc(), matching, values)? {
        Some("gap")
    } else if !is_same_verdict(rt.alloc(), matching, values, verdict)? {
        Some("verdict")
    } else {
        None
    })
}

/// Returns whether these are the values that a plain scan finds.
fn are_same_values(values: &Values, plain: &[MatchedValue]) -> bool {
    if values.len() != plain.len() {
        return false;
    }
    for (place, value) in plain.iter().enumerate() {
        if values.get(place) != *value {
            return false;
        }
    }
    true
}

/// Returns whether the sweep and plain scans agree on all empty dequeues.
fn are_same_windows(
    alloc: Global,
    matching: &Matching,
    values: &[MatchedValue],
) -> Result<bool, Fail> {
    let plain = plain_witness(alloc, &matching.operations(), values)?;
    let found = find_witness(alloc, matching)?;
    Ok(is_same_witness(&found, &plain))
}

fn is_same_witness(found: &WitnessAnswer, plain: &PlainWitness) -> bool {
    match (found, plain) {
        (WitnessAnswer::Gaps(gaps), PlainWitness::Gaps(plain_gaps)) => {
            gaps.as_slice() == plain_gaps.as_slice()
        }
        (WitnessAnswer::Covered { empty, cover }, PlainWitness::Covered(plain_empty, steps)) => {
            empty == plain_empty && cover.as_slice() == steps.as_slice()
        }
        _ => false,
    }
}

/// Returns whether the sweep and plain scans agree on the window of each empty dequeue.
fn are_same_gaps(
    alloc: Global,
    matching: &Matching,
    values: &[MatchedValue],
) -> Result<bool, Fail> {
    let empties = matching.empties();
    for index in 0..empties.len() {
        let empty = empties.get(index);
        let found = gap_for(alloc, matching, empty)?;
        if !is_same_gap(alloc, matching, values, empty, &found)? {
            return Ok(false);
        }
    }
    Ok(true)
}

/// Returns whether plain scans find the same in the window of an empty dequeue.
fn is_same_gap(
    alloc: Global,
    matching: &Matching,
    values: &[MatchedValue],
    empty: OpId,
    found: &GapAnswer,
) -> Result<bool, Fail> {
    let operations = matching.operations();
    let answer = operations.get(empty).ok_or("no operation")?;
    match (found, plain_gap(&operations, values, &answer)) {
        (GapAnswer::Free(gap), Some(free)) => Ok(*gap == free),
        (GapAnswer::Covered(cover), None) => {
            let steps = plain_cover(alloc, values, &answer)?.ok_or("no cover")?;
            Ok(cover.as_slice() == steps.as_slice())
        }
        _ => Ok(false),
    }
}

/// Returns whether the verdict is that of plain scans.
fn is_same_verdict(
    alloc: Global,
    matching: &Matching,
    values: &[MatchedValue],
    verdict: &Verdict,
) -> Result<bool, Fail> {
    match plain_pair(values) {
        Some(pair) => Ok(shows_pair(verdict, pair)),
        None => is_same_without_pair(alloc, matching, values, verdict),
    }
}

/// Does so, if no value overtakes another.
fn is_same_without_pair(
    alloc: Global,
    matching: &Matching,
    values: &[MatchedValue],
    verdict: &Verdict,
) -> Result<bool, Fail> {
    let operations = matching.operations();
    match plain_witness(alloc, &operations, values)? {
        PlainWitness::Covered(empty, steps) => Ok(shows_cover(verdict, empty, steps.as_slice())),
        PlainWitness::Gaps(gaps) => {
            let order = plain_linearization(alloc, &operations, values, &gaps)?;
            Ok(shows_order(verdict, &order))
        }
    }
}

fn shows_pair(verdict: &Verdict, pair: OrderPair) -> bool {
    match verdict {
        Verdict::No(
            Violation::Order {
                enq_a,
                enq_b,
                deq_b,
                deq_a,
            },
        ) => {
            *enq_a == pair.enq_a
                && *enq_b == pair.enq_b
                && *deq_b == pair.deq_b
                && *deq_a == pair.deq_a
        }
        _ => false,
    }
}

fn shows_cover(verdict: &Verdict, plain_empty: OpId, steps: &[CoverStep]) -> bool {
    match verdict {
        Verdict::No(Violation::Witness { empty, cover }) => {
            *empty == plain_empty && cover.as_slice() == steps
        }
        _ => false,
    }
}

fn shows_order(verdict: &Verdict, plain: &[OpId]) -> bool {
    match verdict {
        Verdict::Yes(order) => order.as_slice() == plain,
        Verdict::No(_) => false,
    }
}
