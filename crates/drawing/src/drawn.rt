//! The operations and initial values of a history that are drawn.
ghost use Rattle.std.specs.Prelude.{◌≡◌, IfOk, filter, map};
ghost use Rattle.std.specs.List.{list_any};
ghost use Rattle.event_records.specs.Turns.{TicketsRise};
ghost use Rattle.drawing.specs.Drawn.{events_before, standing_of, stand_near, is_near_any};
ghost use Rattle.drawing.specs.Drawn.{operations_in, drawn_operations, overlaps_line, is_away};
ghost use Rattle.drawing.specs.Drawn.{has_value, is_initial, is_drawn_initial, drawn_initial};

use crate::claim::shown_by;
use crate::columns::events_of;
use claims::{ClaimLine, Claimed};
use event_records::Event;
use history_merge::{History, OpKind, Operation, Operations};
use std::alloc::{AllocError, Global};

/// The number of events before the call of an operation, and before its return.
#[derive(Clone, Copy)]
pub(crate) struct Standing {
    call: usize,
    ret: usize,
}

fn events_before(events: &[Event], ticket: u64) -> usize
    requires { TicketsRise events.now }
    ensures { result ≡ events_before events.now ticket }
{
    events.partition_point(|event| event.ticket < ticket)
}

fn standing_of(events: &[Event], operation: Operation) -> Standing
    requires { TicketsRise events.now }
    ensures { result ≡ standing_of events.now operation }
{
    Standing {
        call: events_before(events, operation.call),
        ret: events_before(events, operation.ret),
    }
}

/// Returns the places of the lines' operations among the events.
fn standings_in(
    alloc: Global,
    events: &[Event],
    lines: &[ClaimLine],
) -> Result<Vec<Standing>, AllocError>
    requires { TicketsRise events.now }
    ensures { IfOk result (λ standings. standings.items ≡ map (standing_of events.now) (operations_in lines.now)) }
{
    let mut standings = Vec::new(alloc);
    for line in lines {
        if let ClaimLine::Op(operation) = *line {
            standings.push(standing_of(events, operation))?;
        }
    }
    Ok(standings)
}

fn is_near_any(listed: &[Standing], standing: Standing, around: usize) -> bool
    ensures { result ≡ list_any (stand_near around standing) listed.now }
{
    listed.iter().any(|other| {
        other.call.saturating_sub(around) <= standing.ret
            && standing.call.saturating_sub(around) <= other.ret
    })
}

/// Returns the operations near one of those of the lines.
fn near_operations(
    alloc: Global,
    events: &[Event],
    operations: &Operations<'_>,
    lines: &[ClaimLine],
    around: usize,
) -> Result<Vec<Operation>, AllocError>
    requires { TicketsRise events.now }
    ensures { IfOk result
        (λ near. near.items ≡ filter (is_near_any events.now around (operations_in lines.now)) operations.now) }
{
    let listed = standings_in(alloc, events, lines)?;
    let mut near = Vec::new(alloc);
    for operation in operations.iter() {
        if is_near_any(listed.as_slice(), standing_of(events, operation), around) {
            near.push(operation)?;
        }
    }
    Ok(near)
}

/// Returns the operations of a history that a picture shows with a claim, in the order of their calls.
///
/// For a `YES`, and if `around` is `None`, these are all operations. For a `NO` they are the operations that it
/// lists, those that overlap one of these, and those with an event among the `around` ones before the call or after
/// the return of one of these.
///
/// Takes O(n (log n + m)) time for n operations and m lines, and memory for the events. The only error is out of
/// memory.
pub fn drawn_operations(
    alloc: Global,
    history: &History,
    claimed: &Claimed,
    around: Option<usize>,
) -> Result<Vec<Operation>, AllocError>
    ensures { IfOk result (λ drawn. drawn.items ≡ drawn_operations history.now claimed.now around) }
{
    match (claimed, around) {
        (Claimed::No(_, lines), Some(around)) => {
            let events = events_of(alloc, history)?;
            near_operations(
                alloc,
                events.as_slice(),
                &history.operations(),
                lines.as_slice(),
                around,
            )
        }
        _ => history.operations().collect(alloc),
    }
}

fn has_value(value: u64, kind: OpKind) -> bool
    ensures { result ≡ has_value value kind }
{
    match kind {
        OpKind::Enqueue(other) | OpKind::Dequeue(other) | OpKind::EnqueueFailed(other) => other
            == value,
        OpKind::DequeueEmpty => false,
    }
}

fn is_initial(value: u64, line: ClaimLine) -> bool
    ensures { result ≡ is_initial value line }
{
    match line {
        ClaimLine::Initial(other) => other == value,
        ClaimLine::Op(_) => false,
    }
}

fn list_initial(lines: &[ClaimLine], value: u64) -> bool
    ensures { result ≡ list_any (is_initial value) lines.now }
{
    lines.iter().any(|line| is_initial(value, *line))
}

fn have_value(operations: &[Operation], value: u64) -> bool
    ensures { result ≡ list_any (λ o. has_value value o.kind) operations.now }
{
    operations
        .iter()
        .any(|operation| has_value(value, operation.kind))
}

fn is_drawn_initial(claimed: &Claimed, drawn: &[Operation], value: u64) -> bool
    ensures { result ≡ is_drawn_initial claimed.now drawn.now value }
{
    list_initial(shown_by(claimed), value) || have_value(drawn, value)
}

/// Returns the initial values that a picture shows with these operations, front first: those that a `NO` lists, and
/// those of the operations.
pub(crate) fn drawn_initial(
    alloc: Global,
    history: &History,
    claimed: &Claimed,
    drawn: &[Operation],
) -> Result<Vec<u64>, AllocError>
    ensures { IfOk result (λ values. values.items ≡ drawn_initial history.now claimed.now drawn.now) }
{
    let mut values = Vec::new(alloc);
    for value in history.initial() {
        if is_drawn_initial(claimed, drawn, *value) {
            values.push(*value)?;
        }
    }
    Ok(values)
}

fn overlaps_line(operation: Operation, line: ClaimLine) -> bool
    ensures { result ≡ overlaps_line operation line }
{
    match line {
        ClaimLine::Op(listed) => operation.call <= listed.ret && listed.call <= operation.ret,
        ClaimLine::Initial(_) => false,
    }
}

fn overlaps_any(operation: Operation, lines: &[ClaimLine]) -> bool
    ensures { result ≡ list_any (overlaps_line operation) lines.now }
{
    lines.iter().any(|line| overlaps_line(operation, *line))
}

/// Returns whether an operation overlaps none of those that show a `NO`.
pub fn is_away(claimed: &Claimed, operation: Operation) -> bool
    ensures { result ≡ is_away claimed.now operation }
{
    match claimed {
        Claimed::Yes(_) => false,
        Claimed::No(_, lines) => !overlaps_any(operation, lines.as_slice()),
    }
}

/// Returns whether one of these operations overlaps none of those that show a `NO`.
pub(crate) fn is_any_away(claimed: &Claimed, operations: &[Operation]) -> bool
    ensures { result ≡ list_any (is_away claimed.now) operations.now }
{
    operations
        .iter()
        .any(|operation| is_away(claimed, *operation))
}
