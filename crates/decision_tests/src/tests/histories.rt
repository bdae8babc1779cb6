//! Histories made of events, and what their methods return.
ghost use Rattle.std.specs.Prelude.{◌≤◌, length, vec_len};

use super::small_histories::{HIDDEN, OF_THREE, OF_TWO, OVERLAPPING, Row, are_rows, at, events_of};
use event_records::{Event, Lists, MAX_EVENTS, MAX_INITIAL, What};
use history_merge::OpKind::{DequeueEmpty, EnqueueFailed};
use history_merge::{Clash, History, HistoryBuilder, HistoryFault, history, history_from, merge};
use std::alloc::{AllocError, Global};
use std::test::Fail;

/// A way to make a history.
#[derive(Clone, Copy)]
enum Maker {
    History,
    HistoryFrom,
    Builder,
}

/// Makes a history of these values and events with a builder.
fn gathered(alloc: Global, initial: Vec<u64>, events: &[Event]) -> Result<History, HistoryFault>
    requires initial { vec_len initial ≤ MAX_INITIAL }
    requires events { length events.now ≤ MAX_EVENTS }
{
    let mut builder = HistoryBuilder::new(alloc, initial);
    for event in events {
        builder.add(*event);
    }
    builder.finish()
}

/// Makes a history of these events in this way. Initial values are passed unless the way takes none.
fn made(
    alloc: Global,
    maker: Maker,
    initial: &[u64],
    events: &[Event],
) -> Result<History, HistoryFault>
    requires initial { length initial.now ≤ MAX_INITIAL }
    requires events { length events.now ≤ MAX_EVENTS }
{
    match maker {
        Maker::History => history(alloc, events),
        Maker::HistoryFrom => history_from(alloc, initial.to_vec(alloc)?, events),
        Maker::Builder => gathered(alloc, initial.to_vec(alloc)?, events),
    }
}

/// Returns the ways to make a history of a queue with these initial values.
fn makers(initial: &[u64]) -> [Maker; 2] {
    if initial.is_empty() {
        [Maker::History, Maker::Builder]
    } else {
        [Maker::HistoryFrom, Maker::Builder]
    }
}

/// An event: its ticket, its thread, and its kind.
type Mark = (u64, u8, What);

/// Faults of initial values and events that no text can have: tickets and threads above the greatest.
static FAULTS: [(&[u64], [Mark; 2], (&str, Option<u64>)); 6] = [
    (
        &[],
        [(5, 0, What::CallDeq), (4, 64, What::CallDeq)],
        ("TicketOrder", Some(1)),
    ),
    (
        &[],
        [
            (1_000_000_000_000, 0, What::CallDeq),
            (0, 64, What::CallDeq),
        ],
        ("TicketOrder", Some(0)),
    ),
    (
        &[],
        [(0, 64, What::CallDeq), (1, 0, What::RetEnq)],
        ("BadThread", Some(0)),
    ),
    (
        &[],
        [(0, 64, What::RetEnq), (1, 0, What::CallDeq)],
        ("BadThread", Some(0)),
    ),
    (
        &[5, 5],
        [
            (1_000_000_000_000, 0, What::CallDeq),
            (0, 0, What::RetEmpty),
        ],
        ("InitialTwice", Some(1)),
    ),
    (
        &[7],
        [(0, 64, What::CallEnq(7)), (1, 64, What::RetEnq)],
        ("BadThread", Some(0)),
    ),
];

/// Returns the name and the place of the fault of these values and events, or another name.
fn fault_of(
    alloc: Global,
    maker: Maker,
    initial: &[u64],
    events: &[Event],
) -> (&'static str, Option<u64>)
    requires initial { length initial.now ≤ MAX_INITIAL }
    requires events { length events.now ≤ MAX_EVENTS }
{
    match made(alloc, maker, initial, events) {
        Ok(_) => ("none", None),
        Err(fault) => (fault.name(), fault.place()),
    }
}

/// Returns whether this is their fault, for each way to make the history.
fn has_fault(alloc: Global, initial: &[u64], marks: [Mark; 2], fault: (&str, Option<u64>)) -> bool {
    let events = marks.map(|(ticket, thread, what)| at(ticket, thread, what));
    if initial.len() > MAX_INITIAL {
        return false;
    }
    let [one, other] = makers(initial);
    fault_of(alloc, one, initial, &events) == fault
        && fault_of(alloc, other, initial, &events) == fault
}

#[test]
fn names_the_first_fault(rt: HostRuntime) {
    for (initial, marks, fault) in &FAULTS {
        assert!(rt; has_fault(rt.alloc(), initial, *marks, *fault), "{fault:?}");
    }
}

/// Two events, and their contradictory tickets, if they have any. A ticket above the greatest contradicts none.
static TICKETS: [([Mark; 2], Option<(u64, u64)>); 4] = [
    ([(4, 0, What::CallDeq), (5, 0, What::RetEmpty)], None),
    (
        [(5, 0, What::CallDeq), (5, 0, What::RetEmpty)],
        Some((5, 5)),
    ),
    (
        [(5, 0, What::CallDeq), (4, 0, What::RetEmpty)],
        Some((5, 4)),
    ),
    (
        [
            (5, 0, What::CallDeq),
            (1_000_000_000_000, 0, What::RetEmpty),
        ],
        None,
    ),
];

/// Returns the contradictory tickets.
fn clashing_tickets(alloc: Global, marks: [Mark; 2]) -> Option<(u64, u64)> {
    let mut builder = HistoryBuilder::new(alloc, Vec::new(alloc));
    for (ticket, thread, what) in marks {
        builder.add(at(ticket, thread, what));
    }
    match builder.clash()? {
        Clash::Tickets(earlier, later) => Some((earlier.event.ticket, later.event.ticket)),
        _ => None,
    }
}

#[test]
fn tickets_clash_that_do_not_rise(rt: HostRuntime) {
    for (marks, wanted) in TICKETS {
        assert!(rt; clashing_tickets(rt.alloc(), marks) == wanted, "{wanted:?}");
    }
}

/// A failed enqueue of the greatest value at the greatest tickets, and a dequeue that overlaps it.
const GREATEST: &[Row] = &[
    (
        999_999_999_996,
        999_999_999_998,
        63,
        EnqueueFailed(u64::MAX),
    ),
    (999_999_999_997, 999_999_999_999, 0, DequeueEmpty),
];

type Shown<'a> = (&'a [u64], &'a [Row]);

/// Initial values, and operations.
static SHOWN: [Shown<'static>; 6] = [
    (&[], &[]),
    (&[], OVERLAPPING),
    (&[], HIDDEN),
    (&[], GREATEST),
    (&[u64::MAX, 5, 0], OF_THREE),
    (&[5, 6], OF_TWO),
];

/// Returns whether the history has these events.
fn are_events(history: &History, events: &[Event]) -> bool {
    let mut left = history.events();
    for event in events {
        if left.next() != Some(*event) {
            return false;
        }
    }
    left.next().is_none()
}

/// Returns the name of a wrong part of the history, or none if all are right.
fn wrong_part(alloc: Global, maker: Maker, shown: &Shown) -> Result<Option<&'static str>, Fail> {
    let (initial, rows) = *shown;
    let events = events_of(alloc, rows)?;
    if initial.len() > MAX_INITIAL || events.len() > MAX_EVENTS {
        return Err("too many values or events")?;
    }
    let history = made(alloc, maker, initial, &events)?;
    Ok(if history.initial() != initial {
        Some("initial values")
    } else if !are_events(&history, &events) {
        Some("events")
    } else if !are_rows(&history.operations(), rows) {
        Some("operations")
    } else {
        None
    })
}

/// Does so for each way to make the history.
fn wrong_in_any(alloc: Global, shown: &Shown) -> Result<Option<&'static str>, Fail> {
    let [one, other] = makers(shown.0);
    let wrong = wrong_part(alloc, one, shown)?;
    if wrong.is_some() {
        return Ok(wrong);
    }
    wrong_part(alloc, other, shown)
}

#[test]
fn shows_what_it_is_made_of(rt: HostRuntime) -> Result<(), Fail> {
    for shown in &SHOWN {
        let wrong = wrong_in_any(rt.alloc(), shown)?;
        assert!(rt; wrong.is_none(), "{wrong:?} of {shown:?}");
    }
    Ok(())
}

/// Returns the merged events of two threads that take turns and of one with a single call, by ticket.
fn merged(alloc: Global) -> Result<Vec<Event>, AllocError> {
    let mut lists = Vec::new(alloc);
    for (thread, ticket) in [(0, 1), (1, 0)] {
        let events = [
            at(ticket, thread, What::CallDeq),
            at(4, thread, What::RetEmpty),
        ];
        lists.push(events.to_vec(alloc)?)?;
    }
    lists.push([at(1, 2, What::CallDeq)].to_vec(alloc)?)?;
    merge(alloc, &Lists::from_vec(lists))
}

/// The merged events: by ticket, and equal tickets in the order of the lists.
const MERGED: [Mark; 5] = [
    (0, 1, What::CallDeq),
    (1, 0, What::CallDeq),
    (1, 2, What::CallDeq),
    (4, 0, What::RetEmpty),
    (4, 1, What::RetEmpty),
];

#[test]
fn merges_by_ticket_and_keeps_ties_in_order(rt: HostRuntime) -> Result<(), Fail> {
    let wanted = MERGED.map(|(ticket, thread, what)| at(ticket, thread, what));
    assert!(rt; merged(rt.alloc())?.as_slice() == wanted.as_slice());
    Ok(())
}
