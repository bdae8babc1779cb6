//! Lines of a claim, looked up in a history: operations by their calls, and initial values.
ghost use Rattle.std.specs.Prelude.{◌≡◌, ◌<◌, ◌↔◌, IsTrue, Contains, length, slice_index_or};
ghost use Rattle.history_merge.specs.declared.operation.Operation.{Operation};
ghost use Rattle.history_merge.specs.Operations.{NoneDid, operations_of};
ghost use Rattle.verdicts.specs.Inner.Claims.{CallsRise};
ghost use Rattle.claims.specs.Showing.{LineDid, LinePrecedes, NoLineDid, ReturnsFirst, ComesBefore};

use claims::ClaimLine;
use event_records::MAX_TICKET;
use history_merge::{History, OpKind, Operation, PackedOperation};

/// Returns whether the line is an operation of this kind, or an initial value that this kind enqueues.
pub(crate) fn line_did(history: &History, line: ClaimLine, kind: OpKind) -> bool
    ensures { IsTrue result ↔ LineDid history.now.initial (operations_of history.now.events) line kind }
{
    match line {
        ClaimLine::Op(operation) => operation.kind == kind && is_operation(history, operation),
        ClaimLine::Initial(value) => kind == OpKind::Enqueue(value)
            && is_among(history.initial(), value),
    }
}

/// Returns whether no operation is of this kind, and no initial value is enqueued by it. Scans them all.
pub(crate) fn no_line_did(history: &History, kind: OpKind) -> bool
    ensures { IsTrue result ↔ NoLineDid history.now.initial (operations_of history.now.events) kind }
{
    none_did(history.by_time(), kind)
}

/// Returns whether the first line precedes the second.
pub(crate) fn line_precedes(history: &History, first: ClaimLine, second: ClaimLine) -> bool
    ensures { IsTrue result ↔ LinePrecedes history.now.initial first second }
{
    match (first, second) {
        (ClaimLine::Op(first), ClaimLine::Op(second)) => first.ret < second.call,
        (ClaimLine::Op(_), ClaimLine::Initial(_)) => false,
        (ClaimLine::Initial(_), ClaimLine::Op(_)) => true,
        (ClaimLine::Initial(first), ClaimLine::Initial(second)) => {
            stands_before(history.initial(), first, second)
        }
    }
}

/// Returns whether both lines are operations, and the first returned before the second.
pub(crate) fn returns_first(first: ClaimLine, second: ClaimLine) -> bool
    ensures { IsTrue result ↔ ReturnsFirst first second }
{
    match (first, second) {
        (ClaimLine::Op(first), ClaimLine::Op(second)) => first.ret < second.ret,
        _ => false,
    }
}

fn is_among(values: &[u64], value: u64) -> bool
    ensures { IsTrue result ↔ Contains values.now value }
{
    values.contains(&value)
}

/// Returns whether the first value comes before the second.
fn stands_before(values: &[u64], first: u64, second: u64) -> bool
    ensures { IsTrue result ↔ ComesBefore values.now first second }
{
    for (place, value) in values.iter().enumerate() {
        if *value == first {
            return is_among(&values[place + 1..], second);
        }
    }
    false
}

/// Returns whether this is one of the operations, found by its call.
fn is_operation(history: &History, operation: Operation) -> bool
    ensures { IsTrue result ↔ Contains (operations_of history.now.events) operation }
{
    let by_time = history.by_time();
    if operation.call > MAX_TICKET || operation.ret > MAX_TICKET {
        return false;
    }
    has_operation(by_time, operation.timed())
}

/// Returns whether this is one of the operations, found by its call.
fn has_operation(operations: &[PackedOperation], operation: Operation) -> bool
    requires { CallsRise operations.now }
    ensures { IsTrue result ↔ Contains operations.now operation }
{
    match operations.binary_search_by_key(&operation.call, |other| other.unpack().call) {
        Ok(place) => is_at(operations, place, &operation),
        Err(_) => false,
    }
}

/// Returns whether this is the operation at `place`.
fn is_at(operations: &[PackedOperation], place: usize, operation: &Operation) -> bool
    requires { place < length operations.now }
    ensures { (d : Operation) → IsTrue result ↔ (slice_index_or operations.now place d ≡ operation.now) }
{
    operations[place].unpack() == *operation
}

/// Returns whether none of the operations is of this kind.
fn none_did(operations: &[PackedOperation], kind: OpKind) -> bool
    ensures { IsTrue result ↔ NoneDid operations.now kind }
{
    operations
        .iter()
        .all(|operation| operation.unpack().kind != kind)
}
