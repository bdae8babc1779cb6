//! All completions of a small history with pending calls.
ghost use Rattle.std.specs.Prelude.{◌<◌};

use event_records::{Event, MAX_EVENTS, MAX_INITIAL, What};
use history_merge::history_from;
use std::alloc::{AllocError, Global};
use std::test::Fail;
use verdicts::{Verdict, decide};

/// Returns whether the event is a call and the last event of its thread.
fn is_pending(events: &[Event], event: Event) -> bool {
    matches!(event.what, What::CallEnq(_) | What::CallDeq)
        && !events.iter().any(|other| other.thread == event.thread && other.ticket > event.ticket)
}

/// Returns the pending calls.
pub(crate) fn pending_calls(alloc: Global, events: &[Event]) -> Result<Vec<Event>, AllocError> {
    let mut calls = Vec::new(alloc);
    for event in events {
        if is_pending(events, *event) {
            calls.push(*event)?;
        }
    }
    Ok(calls)
}

/// Returns the initial values, and those that calls enqueue.
fn all_values(alloc: Global, initial: &[u64], events: &[Event]) -> Result<Vec<u64>, AllocError> {
    let mut values = initial.to_vec(alloc)?;
    for event in events {
        if let What::CallEnq(value) = event.what {
            values.push(value)?;
        }
    }
    Ok(values)
}

/// Returns the number of ways in which a pending call may have ended.
fn ways(call: Event, values: &[u64]) -> u64
    ensures { 0 < result }
{
    match call.what {
        What::CallDeq => (values.len() as u64).saturating_add(2),
        _ => 3,
    }
}

/// Returns the number of ways in which all calls may have ended.
fn all_ways(calls: &[Event], values: &[u64]) -> u64 {
    let mut product = 1u64;
    for call in calls {
        product = product.saturating_mul(ways(*call, values));
    }
    product
}

/// Returns the end of a call in this way, or none if the call is left out.
fn ended(call: Event, values: &[u64], way: u64) -> Option<What> {
    match (call.what, way) {
        (_, 0) => None,
        (What::CallDeq, 1) => Some(What::RetEmpty),
        (What::CallDeq, _) => values
            .get(way as usize - 2)
            .map(|value| What::RetDeq(*value)),
        (_, 1) => Some(What::RetEnq),
        _ => Some(What::RetNot),
    }
}

/// Returns the ends of all calls in this way, as returns after the last event.
fn returns(
    alloc: Global,
    calls: &[Event],
    values: &[u64],
    way: u64,
    ticket: u64,
) -> Result<Vec<Event>, AllocError> {
    let mut left = way;
    let mut ticket = ticket;
    let mut made = Vec::new(alloc);
    for call in calls {
        let count = ways(*call, values);
        if let Some(what) = ended(*call, values, left % count) {
            made.push(Event {
                ticket,
                thread: call.thread,
                what,
            })?;
            ticket = ticket.saturating_add(1);
        }
        left /= count;
    }
    Ok(made)
}

/// Returns the completion with these returns.
fn completed(
    alloc: Global,
    events: &[Event],
    calls: &[Event],
    returns: &[Event],
) -> Result<Vec<Event>, AllocError> {
    let mut full = Vec::new(alloc);
    for event in events {
        let is_open = calls.iter().any(|call| call.ticket == event.ticket);
        if !is_open || returns.iter().any(|made| made.thread == event.thread) {
            full.push(*event)?;
        }
    }
    full.extend_from_slice(returns)?;
    Ok(full)
}

/// Returns whether these events have a linearization.
pub(crate) fn is_linearizable(
    alloc: Global,
    initial: &[u64],
    events: &[Event],
) -> Result<bool, Fail> {
    if initial.len() > MAX_INITIAL || events.len() > MAX_EVENTS {
        return Err(Fail::from("too many values or events"));
    }
    let history = history_from(alloc, initial.to_vec(alloc)?, events)?;
    Ok(matches!(decide(alloc, &history)?, Verdict::Yes(_)))
}

/// Returns whether some completion has a linearization.
pub(crate) fn is_some_linearizable(
    alloc: Global,
    initial: &[u64],
    events: &[Event],
) -> Result<bool, Fail> {
    let calls = pending_calls(alloc, events)?;
    let values = all_values(alloc, initial, events)?;
    for way in 0..all_ways(&calls, &values) {
        let returns = returns(alloc, &calls, &values, way, events.len() as u64)?;
        let full = completed(alloc, events, &calls, &returns)?;
        if is_linearizable(alloc, initial, &full)? {
            return Ok(true);
        }
    }
    Ok(false)
}
