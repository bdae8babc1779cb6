ghost use Rattle.std.specs.Prelude.{◌≡◌, ◌↔◌, ◌⊎◌, ℕ, IsTrue};
ghost use Rattle.history_merge.specs.declared.operation.OpKind.TheVariants.{Dequeue, Enqueue, EnqueueFailed};
ghost use Rattle.history_merge.specs.Operations.{operations_of};
ghost use Rattle.verdicts.specs.Inner.Claims.{dequeued_by, enqueued_by};
ghost use Rattle.claims.specs.Showing.{EnqueuedBefore, LeavesAfter, LineDid, LinePrecedes, LinesCover, NoLineDid};
ghost use Rattle.claims.specs.Showing.{ReturnsFirst, Shows, ShowsFresh, ShowsOrder, ShowsRepeat, ShowsWitness};

use crate::lookup::{line_did, line_precedes, no_line_did, returns_first};
use claims::{ClaimLine, ViolationKind};
use history_merge::{History, OpKind};

/// Returns whether the lines show a violation of this kind.
pub(crate) fn shows_violation(history: &History, kind: ViolationKind, lines: &[ClaimLine]) -> bool
    ensures { IsTrue result ↔ Shows history.now.initial (operations_of history.now.events) kind lines.now }
{
    match kind {
        ViolationKind::VFresh => shows_fresh(history, lines),
        ViolationKind::VRepeat => shows_repeat(history, lines),
        ViolationKind::VOrd => shows_order(history, lines),
        ViolationKind::VWit => shows_witness(history, lines),
    }
}

/// Returns the value that the line dequeued.
fn dequeued_by(line: ClaimLine) -> Option<u64>
    ensures { result ≡ dequeued_by line }
{
    match line {
        ClaimLine::Op(operation) => match operation.kind {
            OpKind::Dequeue(value) => Some(value),
            _ => None,
        },
        ClaimLine::Initial(_) => None,
    }
}

/// Returns the value that the line enqueued.
fn enqueued_by(line: ClaimLine) -> Option<u64>
    ensures { result ≡ enqueued_by line }
{
    match line {
        ClaimLine::Op(operation) => match operation.kind {
            OpKind::Enqueue(value) => Some(value),
            _ => None,
        },
        ClaimLine::Initial(value) => Some(value),
    }
}

/// Returns whether the lines are a phantom dequeue, alone or with a call to enqueue its value.
fn shows_fresh(history: &History, lines: &[ClaimLine]) -> bool
    ensures { IsTrue result ↔ ShowsFresh history.now.initial (operations_of history.now.events) lines.now }
{
    match lines {
        [deq] => match dequeued_by(*deq) {
            Some(value) => is_never_enqueued(history, *deq, value),
            None => false,
        },
        [deq, enq] => match dequeued_by(*deq) {
            Some(value) => is_enqueued_too_late(history, *deq, *enq, value),
            None => false,
        },
        _ => false,
    }
}

fn is_never_enqueued(history: &History, deq: ClaimLine, value: u64) -> bool
    ensures { IsTrue result ↔ (LineDid history.now.initial (operations_of history.now.events) deq (Dequeue value)
        × NoLineDid history.now.initial (operations_of history.now.events) (Enqueue value)
        × NoLineDid history.now.initial (operations_of history.now.events) (EnqueueFailed value)) }
{
    line_did(history, deq, OpKind::Dequeue(value))
        && no_line_did(history, OpKind::Enqueue(value))
        && no_line_did(history, OpKind::EnqueueFailed(value))
}

fn is_enqueued_too_late(history: &History, deq: ClaimLine, enq: ClaimLine, value: u64) -> bool
    ensures { IsTrue result ↔ (LineDid history.now.initial (operations_of history.now.events) deq (Dequeue value)
        × (LineDid history.now.initial (operations_of history.now.events) enq (EnqueueFailed value)
        ⊎ (LineDid history.now.initial (operations_of history.now.events) enq (Enqueue value)
        × LinePrecedes history.now.initial deq enq))) }
{
    line_did(history, deq, OpKind::Dequeue(value))
        && (line_did(history, enq, OpKind::EnqueueFailed(value))
            || line_did(history, enq, OpKind::Enqueue(value)) && line_precedes(history, deq, enq))
}

/// Returns whether the lines are an enqueue and two dequeues of its value.
fn shows_repeat(history: &History, lines: &[ClaimLine]) -> bool
    ensures { IsTrue result ↔ ShowsRepeat history.now.initial (operations_of history.now.events) lines.now }
{
    match lines {
        [enq, first, second] => match enqueued_by(*enq) {
            Some(value) => is_repeat(history, *enq, *first, *second, value),
            None => false,
        },
        _ => false,
    }
}

fn is_repeat(
    history: &History,
    enq: ClaimLine,
    first: ClaimLine,
    second: ClaimLine,
    value: u64,
) -> bool
    ensures { IsTrue result ↔ (LineDid history.now.initial (operations_of history.now.events) enq (Enqueue value)
        × LineDid history.now.initial (operations_of history.now.events) first (Dequeue value)
        × LineDid history.now.initial (operations_of history.now.events) second (Dequeue value)
        × ReturnsFirst first second) }
{
    line_did(history, enq, OpKind::Enqueue(value))
        && line_did(history, first, OpKind::Dequeue(value))
        && line_did(history, second, OpKind::Dequeue(value))
        && returns_first(first, second)
}

/// Returns whether the lines are the enqueues of a and b, the dequeue of b, and one of a if the history has any,
/// against the order of the enqueues.
fn shows_order(history: &History, lines: &[ClaimLine]) -> bool
    ensures { IsTrue result ↔ ShowsOrder history.now.initial (operations_of history.now.events) lines.now }
{
    let [enq_a, enq_b, deq_b, deq_a @ ..] = lines else {
        return false;
    };
    let (Some(a), Some(b)) = (enqueued_by(*enq_a), enqueued_by(*enq_b)) else {
        return false;
    };
    line_did(history, *enq_a, OpKind::Enqueue(a))
        && line_did(history, *enq_b, OpKind::Enqueue(b))
        && line_did(history, *deq_b, OpKind::Dequeue(b))
        && line_precedes(history, *enq_a, *enq_b)
        && leaves_after(history, *deq_b, a, deq_a)
}

/// Returns whether `deq` is one line, a dequeue of the value that `line` precedes, or no line, and no dequeue of the
/// value is in the history.
fn leaves_after(history: &History, line: ClaimLine, value: u64, deq: &[ClaimLine]) -> bool
    ensures { IsTrue result ↔ LeavesAfter history.now.initial (operations_of history.now.events) line value deq.now }
{
    match deq {
        [] => no_line_did(history, OpKind::Dequeue(value)),
        [deq] => line_did(history, *deq, OpKind::Dequeue(value))
            && line_precedes(history, line, *deq),
        _ => false,
    }
}

/// Returns whether the lines are an empty dequeue and the values of a cover.
fn shows_witness(history: &History, lines: &[ClaimLine]) -> bool
    ensures { IsTrue result ↔ ShowsWitness history.now.initial (operations_of history.now.events) lines.now }
{
    match lines {
        [empty, cover @ ..] => line_did(history, *empty, OpKind::DequeueEmpty)
            && covers(history, *empty, cover),
        [] => false,
    }
}

/// Returns whether the lines are the enqueue and the dequeue of each value of a cover in turn. The last value may
/// lack a dequeue.
fn covers(history: &History, empty: ClaimLine, lines: &[ClaimLine]) -> bool
    ensures { IsTrue result ↔ LinesCover history.now.initial (operations_of history.now.events) empty empty lines.now }
{
    let mut line = empty;
    let mut rest = lines;
    while let [enq, deq, _, ..] = rest {
        if !hands_over(history, line, *enq, *deq) {
            return false;
        }
        line = *deq;
        rest = &rest[2..];
    }
    match rest {
        [enq, deq @ ..] => match enqueued_by(*enq) {
            Some(value) => enters_before(history, line, *enq, value)
                && leaves_after(history, empty, value, deq),
            None => false,
        },
        [] => false,
    }
}

/// Returns whether `enq` enqueued a value before the given line, and `deq` dequeued it.
fn hands_over(history: &History, line: ClaimLine, enq: ClaimLine, deq: ClaimLine) -> bool
    ensures { IsTrue result
        ↔ ((v : ℕ) × EnqueuedBefore history.now.initial (operations_of history.now.events) line enq v
        × LineDid history.now.initial (operations_of history.now.events) deq (Dequeue v)) }
{
    match enqueued_by(enq) {
        Some(value) => enters_before(history, line, enq, value)
            && line_did(history, deq, OpKind::Dequeue(value)),
        None => false,
    }
}

fn enters_before(history: &History, line: ClaimLine, enq: ClaimLine, value: u64) -> bool
    ensures { IsTrue result ↔ EnqueuedBefore history.now.initial (operations_of history.now.events) line enq value }
{
    line_did(history, enq, OpKind::Enqueue(value)) && line_precedes(history, enq, line)
}
