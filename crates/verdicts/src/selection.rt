ghost use Rattle.std.specs.Prelude.{◌≡◌, ◌↔◌, ◌≤◌, ℕ, Contains, IsTrue, filter, filter_map, length, IfOk};
ghost use Rattle.std.specs.Ordering.{nat_cmp};
ghost use Rattle.std.specs.BTreeSet.{contains};
ghost use Rattle.event_records.specs.declared.limits.TheConstants.{MAX_EVENTS};
ghost use Rattle.history_merge.specs.Operations.{operations_of};
ghost use Rattle.verdicts.specs.Selection.{value_of, selects};
ghost use Rattle.verdicts.specs.Inner.Selecting.{call_in, holds_ticket, value_in, SelectsNamed};

use claims::ClaimLine;
use event_records::{Event, MAX_EVENTS};
use history_merge::{Events, History, OpKind, Operation, Operations};
use std::alloc::{AllocError, Global};
use std::collections::BTreeSet;

/// Values with all their operations, and operations without a value by their calls.
#[derive(Drop)]
pub(crate) struct Selection {
    values: BTreeSet<u64>,
    calls: BTreeSet<u64>,
}

impl Selection {
    /// Returns the selection of the values and calls of these lines.
    pub(crate) fn named_by(alloc: Global, lines: &[ClaimLine]) -> Result<Selection, AllocError>
        ensures { IfOk result (λ selection. SelectsNamed lines.now (contains nat_cmp selection.values)
            (contains nat_cmp selection.calls)) }
    {
        let values = values_of(alloc, lines)?;
        let calls = calls_of(alloc, lines)?;
        Ok(Selection { values, calls })
    }

    /// Returns the selected ones of these initial values, in their order.
    pub(crate) fn initial(&self, alloc: Global, initial: &[u64]) -> Result<Vec<u64>, AllocError>
        ensures { IfOk result (λ kept. kept.items ≡ filter (contains nat_cmp self.now.values) initial.now) }
    {
        initial
            .iter()
            .filter(|value| self.values.contains(*value))
            .copied()
            .collect(alloc)
    }

    /// Returns the events of the selected operations of a history, in their order.
    pub(crate) fn events(&self, alloc: Global, history: &History) -> Result<Vec<Event>, AllocError>
        ensures kept { IfOk result
            (λ kept. kept.items ≡ filter (λ e. holds_ticket (filter (selects (contains nat_cmp self.now.values)
            (contains nat_cmp self.now.calls)) (operations_of history.now.events)) e.ticket) history.now.events) }
        ensures few { length history.now.events ≤ MAX_EVENTS }
    {
        let tickets = self.tickets(alloc, &history.operations())?;
        events_at(alloc, history.events(), &tickets)
    }

    /// Returns the tickets of the selected operations.
    fn tickets(
        &self,
        alloc: Global,
        operations: &Operations<'_>,
    ) -> Result<BTreeSet<u64>, AllocError>
        ensures { IfOk result (λ tickets. (t : ℕ) → contains nat_cmp tickets t
            ≡ holds_ticket
            (filter (selects (contains nat_cmp self.now.values) (contains nat_cmp self.now.calls))
            operations.now) t) }
    {
        let mut tickets = BTreeSet::new(alloc);
        for operation in operations.iter() {
            if self.selects(&operation) {
                tickets.insert(operation.call)?;
                tickets.insert(operation.ret)?;
            }
        }
        Ok(tickets)
    }

    /// Returns whether the operation is selected.
    fn selects(&self, operation: &Operation) -> bool
        ensures { result ≡ selects (contains nat_cmp self.now.values) (contains nat_cmp self.now.calls) operation.now }
    {
        match value_of(operation.kind) {
            Some(value) => self.values.contains(&value),
            None => self.calls.contains(&operation.call),
        }
    }
}

/// Returns the value of an operation of this kind. An empty dequeue has none.
fn value_of(kind: OpKind) -> Option<u64>
    ensures { result ≡ value_of kind }
{
    match kind {
        OpKind::Enqueue(value) | OpKind::Dequeue(value) | OpKind::EnqueueFailed(value) => Some(
            value,
        ),
        OpKind::DequeueEmpty => None,
    }
}

/// Returns the value of a line.
fn value_in(line: &ClaimLine) -> Option<u64>
    ensures { result ≡ value_in line.now }
{
    match line {
        ClaimLine::Op(operation) => value_of(operation.kind),
        ClaimLine::Initial(value) => Some(*value),
    }
}

/// Returns the call of a line's operation.
fn call_in(line: &ClaimLine) -> Option<u64>
    ensures { result ≡ call_in line.now }
{
    match line {
        ClaimLine::Op(operation) => Some(operation.call),
        ClaimLine::Initial(_) => None,
    }
}

fn values_of(alloc: Global, lines: &[ClaimLine]) -> Result<BTreeSet<u64>, AllocError>
    ensures { IfOk result
        (λ values. (v : ℕ) → IsTrue (contains nat_cmp values v) ↔ Contains (filter_map value_in lines.now) v) }
{
    lines.iter().filter_map(value_in).collect(alloc)
}

fn calls_of(alloc: Global, lines: &[ClaimLine]) -> Result<BTreeSet<u64>, AllocError>
    ensures { IfOk result
        (λ calls. (call : ℕ) → IsTrue (contains nat_cmp calls call) ↔ Contains (filter_map call_in lines.now) call) }
{
    lines.iter().filter_map(call_in).collect(alloc)
}

/// Returns the events at these tickets, in their order.
fn events_at(
    alloc: Global,
    events: Events<'_>,
    tickets: &BTreeSet<u64>,
) -> Result<Vec<Event>, AllocError>
    ensures { IfOk result (λ kept. kept.items ≡ filter (λ e. contains nat_cmp tickets.now e.ticket) events.entry) }
{
    events
        .filter(|event| tickets.contains(&event.ticket))
        .collect(alloc)
}
