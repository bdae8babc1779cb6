//! The answers about a history.
ghost use Rattle.std.specs.Prelude.{IfOk};
ghost use Rattle.history_merge.specs.Operations.{operations_of};
ghost use Rattle.claims.specs.Claiming.{IsWithin};
ghost use Rattle.value_match.specs.Outcome.{IsChosenViolation};
ghost use Rattle.verdicts.specs.Verdicts.{IsVerdict};

use crate::histories::{by, history_of};
use history_merge::OpKind::{Dequeue, DequeueEmpty, Enqueue};
use history_merge::{History, Operation};
use std::alloc::{AllocError, Global};
use std::process::Abort;
use std::test::Fail;
use std::thread::Threads;
use value_match::Violation;
use verdicts::{
    ClaimLine, ClaimLines, Claimed, Lines, Verdict, ViolationKind, claim, decide, decide_par,
    shrink, verify,
};

/// A history with its expected answer, the lines of its verdict, and the operations of the history that it is shrunk
/// to.
#[derive(Drop)]
struct Case<'a> {
    operations: &'a [Operation],
    /// None for a `YES`.
    kind: Option<ViolationKind>,
    lines: &'a [Operation],
    kept: &'a [Operation],
}

/// Compares the answers about one history.
fn compare<R: Abort + AllocGlobal + Threads + Sync>(rt: &R, case: &Case) -> Result<(), Fail> {
    let history = history_of(rt.alloc(), case.operations)?;
    assert!(rt; is_decided(rt.alloc(), &history, case)?, "decided");
    assert!(rt; is_decided_in_pieces(rt, &history, case)?, "in pieces");
    assert!(rt;
        is_evidence_again(rt.alloc(), &history, case.kind, case.lines)?,
        "evidence"
    );
    assert!(rt;
        !is_evidence_again(rt.alloc(), &history, case.kind, &[])?,
        "no evidence"
    );
    Ok(())
}

/// Returns whether a history gets the verdict of its case, and is shrunk as in its case.
fn is_decided(alloc: Global, history: &History, case: &Case) -> Result<bool, AllocError> {
    let verdict = decided(alloc, history)?;
    let is_wanted = is_claim_wanted(alloc, history, &verdict, case)?;
    Ok(is_wanted && is_shrunk(alloc, history, &verdict, case.kept)?)
}

/// Returns whether a history gets that verdict by searches in pieces.
fn is_decided_in_pieces<R: AllocGlobal + Threads + Sync>(
    rt: &R,
    history: &History,
    case: &Case,
) -> Result<bool, AllocError> {
    let verdict = decided_in_pieces(rt, history)?;
    is_claim_wanted(rt.alloc(), history, &verdict, case)
}

/// Returns whether the claim of a verdict is that of a case.
fn is_claim_wanted(
    alloc: Global,
    history: &History,
    verdict: &Verdict,
    case: &Case,
) -> Result<bool, AllocError>
    requires { IsWithin history.now.initial (operations_of history.now.events) verdict.now }
{
    let claimed = claim_of(alloc, history, verdict)?;
    Ok(is_wanted(case, &claimed))
}

/// Returns whether the history of the violation alone keeps these operations. A linearizable history keeps none.
fn is_shrunk(
    alloc: Global,
    history: &History,
    verdict: &Verdict,
    wanted: &[Operation],
) -> Result<bool, AllocError>
    requires { IsVerdict history.now.initial (operations_of history.now.events) verdict.now }
{
    match verdict {
        Verdict::Yes(_) => Ok(wanted.is_empty()),
        Verdict::No(violation) => {
            let small = shrunk(alloc, history, violation)?;
            Ok(kept(alloc, &small)?.as_slice() == wanted)
        }
    }
}

/// An empty dequeue during which first one value and then another was in the queue.
#[test]
fn of_a_covered_empty_answer(rt: HostRuntime) -> Result<(), Fail> {
    let (enq_7, empty) = (by(0, Enqueue(7), 0, 1), by(1, DequeueEmpty, 2, 9));
    let (enq_9, deq_7, deq_9) = (
        by(0, Enqueue(9), 3, 4),
        by(0, Dequeue(7), 5, 6),
        by(0, Dequeue(9), 10, 11),
    );
    let case = Case {
        operations: &[enq_7, empty, enq_9, deq_7, deq_9],
        kind: Some(ViolationKind::VWit),
        lines: &[empty, enq_7, deq_7, enq_9, deq_9],
        kept: &[enq_7, empty, enq_9, deq_7, deq_9],
    };
    compare(&rt, &case)
}

/// A value that overtakes another, and a third one.
#[test]
fn of_values_out_of_order(rt: HostRuntime) -> Result<(), Fail> {
    let (enq_7, enq_9, deq_9) = (
        by(0, Enqueue(7), 0, 1),
        by(0, Enqueue(9), 2, 3),
        by(0, Dequeue(9), 4, 5),
    );
    let case = Case {
        operations: &[enq_7, enq_9, deq_9, by(0, Enqueue(5), 6, 7)],
        kind: Some(ViolationKind::VOrd),
        lines: &[enq_7, enq_9, deq_9],
        kept: &[enq_7, enq_9, deq_9],
    };
    compare(&rt, &case)
}

/// An empty dequeue with one gap at which the queue may have been empty.
#[test]
fn of_a_legal_order(rt: HostRuntime) -> Result<(), Fail> {
    let (enq_7, empty, deq_7) = (
        by(0, Enqueue(7), 0, 1),
        by(1, DequeueEmpty, 2, 9),
        by(2, Dequeue(7), 4, 5),
    );
    let (enq_9, deq_9) = (by(0, Enqueue(9), 3, 6), by(0, Dequeue(9), 10, 11));
    let case = Case {
        operations: &[enq_7, empty, enq_9, deq_7, deq_9],
        kind: None,
        lines: &[enq_7, deq_7, empty, enq_9, deq_9],
        kept: &[],
    };
    compare(&rt, &case)
}

/// Returns the verdict on a history.
pub(crate) fn decided(alloc: Global, history: &History) -> Result<Verdict, AllocError>
    ensures chosen { IfOk result (λ verdict. IsVerdict history.now.initial
        (operations_of history.now.events) verdict) }
    ensures places { IfOk result (λ verdict. IsWithin history.now.initial (operations_of history.now.events) verdict) }
{
    match decide(alloc, history) {
        Ok(verdict) => Ok(verdict),
        Err(_) => decide(alloc, history),
    }
}

/// Returns the verdict on a history by searches in pieces.
fn decided_in_pieces<R: AllocGlobal + Threads + Sync>(
    rt: &R,
    history: &History,
) -> Result<Verdict, AllocError>
    ensures { IfOk result (λ verdict. IsWithin history.now.initial (operations_of history.now.events) verdict) }
{
    match decide_par(rt, rt.alloc(), history, 4) {
        Ok(verdict) => Ok(verdict),
        Err(_) => decide_par(rt, rt.alloc(), history, 4),
    }
}

/// Returns the claim of a verdict.
fn claim_of(alloc: Global, history: &History, verdict: &Verdict) -> Result<Claimed, AllocError>
    requires { IsWithin history.now.initial (operations_of history.now.events) verdict.now }
{
    match claim(alloc, history, verdict) {
        Ok(claimed) => Ok(claimed),
        Err(_) => claim(alloc, history, verdict),
    }
}

/// Returns whether a claim is that of a case.
fn is_wanted(case: &Case, claimed: &Claimed) -> bool {
    match claimed {
        Claimed::Yes(lines) => case.kind.is_none() && lines.as_slice() == case.lines,
        Claimed::No(kind, lines) => {
            case.kind == Some(*kind) && are_operations(lines.as_slice(), case.lines)
        }
    }
}

/// Returns whether the lines list these operations, one by one.
fn are_operations(lines: &[ClaimLine], operations: &[Operation]) -> bool {
    for (line, operation) in lines.iter().zip(operations) {
        if *line != ClaimLine::Op(*operation) {
            return false;
        }
    }
    lines.len() == operations.len()
}

/// Returns lines that list these operations.
fn lines_of(alloc: Global, operations: &[Operation]) -> Result<ClaimLines, AllocError> {
    let lines = operations
        .iter()
        .map(|operation| ClaimLine::Op(*operation))
        .collect(alloc)?;
    Ok(ClaimLines::from_vec(lines))
}

/// Returns whether these lines are evidence of this kind in a history.
fn is_evidence(
    alloc: Global,
    history: &History,
    kind: Option<ViolationKind>,
    lines: &[Operation],
) -> Result<bool, AllocError> {
    let claimed = match kind {
        None => Claimed::Yes(Lines::from_vec(Vec::from_slice(alloc, lines)?)),
        Some(kind) => Claimed::No(kind, lines_of(alloc, lines)?),
    };
    verify(alloc, history, &claimed)
}

/// Does so, and once more if memory ran out.
fn is_evidence_again(
    alloc: Global,
    history: &History,
    kind: Option<ViolationKind>,
    lines: &[Operation],
) -> Result<bool, AllocError> {
    match is_evidence(alloc, history, kind, lines) {
        Ok(is_evidence) => Ok(is_evidence),
        Err(_) => is_evidence(alloc, history, kind, lines),
    }
}

/// Returns the history of a violation alone.
fn shrunk(alloc: Global, history: &History, violation: &Violation) -> Result<History, AllocError>
    requires { IsChosenViolation history.now.initial (operations_of history.now.events) violation.now }
{
    match shrink(alloc, history, violation) {
        Ok(small) => Ok(small),
        Err(_) => shrink(alloc, history, violation),
    }
}

/// Returns the operations that a smaller history keeps.
fn kept(alloc: Global, history: &History) -> Result<Vec<Operation>, AllocError> {
    match history.operations().collect(alloc) {
        Ok(operations) => Ok(operations),
        Err(_) => history.operations().collect(alloc),
    }
}
