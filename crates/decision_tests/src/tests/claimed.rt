//! The claims of verdicts.

use super::small_histories::{DEQUEUED_LATER, OVERLAPPING, Row, history_behind, is_row};
use history_merge::OpKind::{Dequeue, DequeueEmpty, Enqueue, EnqueueFailed};
use history_merge::{History, Operation};
use parallel_finders::MAX_PIECES;
use std::alloc::AllocError;
use std::test::Fail;
use std::thread::Threads;
use verdicts::ViolationKind::{VFresh, VOrd, VRepeat, VWit};
use verdicts::{ClaimLine, Claimed, ViolationKind, claim, decide, decide_par, verify};

/// Returns whether the line lists the operation of the row.
fn is_line(line: &ClaimLine, row: &Row) -> bool {
    match line {
        ClaimLine::Op(operation) => is_row(Some(*operation), Some(row)),
        ClaimLine::Initial(_) => false,
    }
}

fn are_lines(lines: &[ClaimLine], rows: &[Row]) -> bool {
    if lines.len() != rows.len() {
        return false;
    }
    for (line, row) in lines.iter().zip(rows) {
        if !is_line(line, row) {
            return false;
        }
    }
    true
}

fn is_order(order: &[Operation], rows: &[Row]) -> bool {
    if order.len() != rows.len() {
        return false;
    }
    for (operation, row) in order.iter().zip(rows) {
        if !is_row(Some(*operation), Some(row)) {
            return false;
        }
    }
    true
}

/// Returns whether the claim has this kind, if it is a `NO`, and lists these operations.
fn is_claim(claimed: &Claimed, kind: Option<ViolationKind>, rows: &[Row]) -> bool {
    match claimed {
        Claimed::Yes(order) => kind.is_none() && is_order(order.as_slice(), rows),
        Claimed::No(claimed_kind, lines) => {
            kind == Some(*claimed_kind) && are_lines(lines.as_slice(), rows)
        }
    }
}

/// Returns the claim of the verdict on a history. The search runs in `pieces` pieces, or in one go if that number is
/// no number of pieces.
fn claimed_in<R: AllocGlobal + Threads + Sync>(
    rt: &R,
    history: &History,
    pieces: usize,
) -> Result<Claimed, AllocError> {
    if 1 <= pieces && pieces <= MAX_PIECES {
        let verdict = decide_par(rt, rt.alloc(), history, pieces)?;
        claim(rt.alloc(), history, &verdict)
    } else {
        let verdict = decide(rt.alloc(), history)?;
        claim(rt.alloc(), history, &verdict)
    }
}

/// Returns whether the verdict claims this, and the claim is true.
fn claims<R: AllocGlobal + Threads + Sync>(
    rt: &R,
    history: &History,
    pieces: usize,
    (kind, rows): (Option<ViolationKind>, &[Row]),
) -> Result<bool, AllocError> {
    let claimed = claimed_in(rt, history, pieces)?;
    Ok(is_claim(&claimed, kind, rows) && verify(rt.alloc(), history, &claimed)?)
}

/// Returns the first number of pieces with which the verdict on these operations doesn't claim this, if there is one.
fn wrong_pieces<R: AllocGlobal + Threads + Sync>(
    rt: &R,
    rows: &[Row],
    wanted: (Option<ViolationKind>, &[Row]),
) -> Result<Option<usize>, Fail> {
    let history = history_behind(rt.alloc(), &[], rows)?;
    for pieces in [0, 1, 2, 3, 64] {
        if !claims(rt, &history, pieces, wanted)? {
            return Ok(Some(pieces));
        }
    }
    Ok(None)
}

/// Operations, the kind of their violation if there is one, and the operations of the claim.
static CLAIMS: [(&[Row], Option<ViolationKind>, &[Row]); 6] = [
    (&[], None, &[]),
    (
        OVERLAPPING,
        None,
        &[
            (1, 3, 1, Enqueue(9)),
            (0, 2, 0, Enqueue(7)),
            (4, 5, 0, Dequeue(9)),
            (6, 7, 0, Dequeue(7)),
        ],
    ),
    (
        &[(0, 1, 0, EnqueueFailed(7)), (2, 3, 0, Dequeue(7))],
        Some(VFresh),
        &[(2, 3, 0, Dequeue(7)), (0, 1, 0, EnqueueFailed(7))],
    ),
    (
        &[
            (0, 1, 0, Enqueue(7)),
            (2, 3, 0, Dequeue(7)),
            (4, 5, 0, Dequeue(7)),
        ],
        Some(VRepeat),
        &[
            (0, 1, 0, Enqueue(7)),
            (2, 3, 0, Dequeue(7)),
            (4, 5, 0, Dequeue(7)),
        ],
    ),
    (DEQUEUED_LATER, Some(VOrd), DEQUEUED_LATER),
    (
        &[(0, 1, 0, Enqueue(7)), (2, 9, 1, DequeueEmpty)],
        Some(VWit),
        &[(2, 9, 1, DequeueEmpty), (0, 1, 0, Enqueue(7))],
    ),
];

#[test]
fn a_verdict_claims_its_order_or_what_it_shows(rt: HostRuntime) -> Result<(), Fail> {
    for (rows, kind, claimed) in &CLAIMS {
        let wrong = wrong_pieces(&rt, rows, (*kind, claimed))?;
        assert!(rt; wrong.is_none(), "{rows:?} in {wrong:?} pieces");
    }
    Ok(())
}
