//! The maximum number of values that were definitely in the queue at once.
ghost use Rattle.std.specs.Prelude.{◌≡◌, ◌+◌, ◌≤◌, ◌++◌, ◌&&◌, ◌||◌, ◌==◌, ◌∷◌, [], ℕ, IfOk, OnOk};
ghost use Rattle.std.specs.Prelude.{count_by, false, if◌then◌else◌, length, nat_lt, not, vec_len};
ghost use Rattle.std.specs.Option.{option_map_or};
ghost use Rattle.event_records.specs.declared.limits.TheConstants.{MAX_EVENTS, MAX_INITIAL};
ghost use Rattle.history_merge.specs.declared.operation.Operation.{Operation};
ghost use Rattle.history_merge.specs.Operations.{operations_of};
ghost use Rattle.history_stats.specs.AtOnce.{IsMost, stay_count, values_put_before};
ghost use Rattle.history_stats.specs.Inner.AtOnce.{count_before, is_kept_before, is_left_before, values_come_before};

use crate::at_once::most_of;
use crate::moment::Moment;
use history_merge::{OpKind, Operation, Operations};
use std::alloc::{AllocError, Global};
use std::collections::BTreeMap;

/// Returns the maximum number of values that were definitely in the queue at one gap.
///
/// Takes O(n log n) time for n operations and initial values, and memory in proportion to them.
pub(crate) fn most_queued(
    alloc: Global,
    initial: &[u64],
    operations: &Operations<'_>,
) -> Result<usize, AllocError>
    requires few_initial { length initial.now ≤ MAX_INITIAL }
    requires few { length operations.now ≤ MAX_EVENTS }
    ensures { IfOk result
        (IsMost (λ gap. stay_count gap operations.now (initial.now ++ values_put_before gap operations.now))) }
{
    let takes = first_dequeues(alloc, operations, Moment::Call)?;
    let mut arrivals = Vec::new(alloc);
    let mut departures = Vec::new(alloc);
    add_initial(&mut departures, initial, &takes)?;
    add_enqueued(
        &mut arrivals,
        &mut departures,
        operations,
        Moment::Return,
        &takes,
    )?;
    Ok(most_of(initial.len(), arrivals, departures))
}

/// Returns for each dequeued value the least ticket of this moment of its dequeues.
pub(crate) fn first_dequeues(
    alloc: Global,
    operations: &Operations<'_>,
    moment: Moment,
) -> Result<BTreeMap<u64, u64>, AllocError>
    ensures { IfOk result
        (λ first. (gap v : ℕ) → is_kept_before gap first v ≡ is_left_before moment gap operations.now v) }
{
    let mut first = BTreeMap::new(alloc);
    for operation in operations.iter() {
        if let OpKind::Dequeue(value) = operation.kind {
            keep_least(&mut first, value, moment.ticket(operation))?;
        }
    }
    Ok(first)
}

/// Keeps the ticket for the value, unless a lower one is kept.
pub(crate) fn keep_least(
    kept: &mut BTreeMap<u64, u64>,
    value: u64,
    ticket: u64,
) -> Result<(), AllocError>
    ensures { OnOk result ((gap v : ℕ) → is_kept_before gap kept.new v
        ≡ (is_kept_before gap kept.old v || (v == value && nat_lt ticket gap))) }
{
    let least = match kept.get(&value) {
        Some(earlier) => ticket.min(*earlier),
        None => ticket,
    };
    kept.insert(value, least)?;
    Ok(())
}

/// Returns the ticket kept for the value, if there is one.
pub(crate) fn ticket_for(kept: &BTreeMap<u64, u64>, value: u64) -> Option<u64>
    ensures { (gap : ℕ) → option_map_or (λ t. nat_lt t gap) result false ≡ is_kept_before gap kept.now value }
{
    kept.get(&value).copied()
}

/// Adds a departure for each initial value that is dequeued.
pub(crate) fn add_initial(
    departures: &mut Vec<u64>,
    values: &[u64],
    takes: &BTreeMap<u64, u64>,
) -> Result<(), AllocError>
    ensures { OnOk result ((gap : ℕ) → count_by (λ v. not (is_kept_before gap takes.now v)) values.now
        + count_before gap departures.new.items
        ≡ length values.now + count_before gap departures.old.items) }
{
    for value in values {
        add_go(departures, ticket_for(takes, *value))?;
    }
    Ok(())
}

/// Adds the departure of a value, if it is dequeued.
fn add_go(departures: &mut Vec<u64>, take: Option<u64>) -> Result<(), AllocError>
    ensures { OnOk result ((gap : ℕ) → count_before gap departures.new.items
        ≡ count_before gap departures.old.items + (if option_map_or (λ t. nat_lt t gap) take false then 1 else 0)) }
{
    if let Some(ticket) = take {
        departures.push(ticket)?;
    }
    Ok(())
}

/// Adds for each enqueue an arrival, at the ticket of this moment, and a departure if its value is dequeued.
pub(crate) fn add_enqueued(
    arrivals: &mut Vec<u64>,
    departures: &mut Vec<u64>,
    operations: &Operations<'_>,
    moment: Moment,
    takes: &BTreeMap<u64, u64>,
) -> Result<(), AllocError>
    ensures stays { OnOk result ((gap : ℕ)
        → count_by (λ v. not (is_kept_before gap takes.now v)) (values_come_before moment gap operations.now)
        + count_before gap departures.new.items + count_before gap arrivals.old.items
        ≡ count_before gap arrivals.new.items + count_before gap departures.old.items) }
    ensures few { OnOk result (vec_len arrivals.new ≤ vec_len arrivals.old + length operations.now) }
{
    for operation in operations.iter() {
        add_one(arrivals, departures, operation, moment, takes)?;
    }
    Ok(())
}

/// Adds the arrival and the departure of the value of one operation, if it is an enqueue.
fn add_one(
    arrivals: &mut Vec<u64>,
    departures: &mut Vec<u64>,
    operation: Operation,
    moment: Moment,
    takes: &BTreeMap<u64, u64>,
) -> Result<(), AllocError>
    ensures stays { OnOk result ((gap : ℕ)
        → count_by (λ v. not (is_kept_before gap takes.now v)) (values_come_before moment gap (operation ∷ []))
        + count_before gap departures.new.items + count_before gap arrivals.old.items
        ≡ count_before gap arrivals.new.items + count_before gap departures.old.items) }
    ensures few { OnOk result (vec_len arrivals.new ≤ vec_len arrivals.old + 1) }
{
    match operation.kind {
        OpKind::Enqueue(value) => add_stay(
            arrivals,
            departures,
            moment.ticket(operation),
            ticket_for(takes, value),
        ),
        _ => Ok(()),
    }
}

/// Adds the arrival of a value, and its departure if it is dequeued. A departure doesn't come before the arrival.
fn add_stay(
    arrivals: &mut Vec<u64>,
    departures: &mut Vec<u64>,
    put: u64,
    take: Option<u64>,
) -> Result<(), AllocError>
    ensures stays { OnOk result
        ((gap : ℕ) → (if nat_lt put gap && not (option_map_or (λ t. nat_lt t gap) take false) then 1 else 0)
        + count_before gap departures.new.items + count_before gap arrivals.old.items
        ≡ count_before gap arrivals.new.items + count_before gap departures.old.items) }
    ensures few { OnOk result (vec_len arrivals.new ≤ vec_len arrivals.old + 1) }
{
    arrivals.push(put)?;
    if let Some(ticket) = take {
        departures.push(ticket.max(put))?;
    }
    Ok(())
}
