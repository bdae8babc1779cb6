//! Compares the completion of a history with pending calls with each of its completions.

use crate::tests::pending_calls::{initial_values, seeded_events};
use crate::tests::plain_completions::{is_linearizable, is_some_linearizable, pending_calls};
use completions::complete;
use event_records::{Event, MAX_EVENTS, MAX_INITIAL, MAX_TICKET};
use packed_events::PackedEvent;
use std::alloc::{AllocError, Global};
use std::process::Abort;
use std::test::Fail;

/// The number of histories made.
const SEEDS: u64 = 8_000;

/// The number of histories with pending calls, and of those among them that have a linearization.
#[derive(Clone, Copy, Debug, Default)]
struct Tried {
    pending: u32,
    linearizable: u32,
}

/// Returns these events, packed.
fn packed(alloc: Global, events: &[Event]) -> Result<Vec<PackedEvent>, Fail> {
    let mut packed = Vec::new(alloc);
    for event in events {
        if event.ticket > MAX_TICKET {
            return Err(Fail::from("a ticket past the greatest"));
        }
        packed.push(PackedEvent::new(*event))?;
    }
    Ok(packed)
}

fn unpacked(alloc: Global, events: &[PackedEvent]) -> Result<Vec<Event>, AllocError> {
    events.iter().map(|event| event.unpack()).collect(alloc)
}

/// Returns whether the history of a seed has a linearization by `complete`, whether one of its completions has one,
/// and the number of its pending calls.
fn compared(alloc: Global, seed: u64) -> Result<(bool, bool, usize), Fail> {
    let initial = initial_values(alloc, seed)?;
    let events = seeded_events(alloc, seed, &initial)?;
    let searched = is_some_linearizable(alloc, &initial, &events)?;
    let pending = pending_calls(alloc, &events)?.len();
    let packed = packed(alloc, &events)?;
    if initial.len() > MAX_INITIAL || packed.len() > MAX_EVENTS {
        return Err(Fail::from("too many values or events"));
    }
    let made = complete(alloc, &initial, packed)?;
    if made.pending != pending {
        return Err(Fail::from("another number of pending calls"));
    }
    let decided = is_linearizable(alloc, &initial, &unpacked(alloc, &made.events)?)?;
    Ok((decided, searched, pending))
}

/// Compares the histories of all seeds.
fn compare_all(rt: &(impl Abort + AllocGlobal)) -> Result<Tried, Fail> {
    let mut tried = Tried::default();
    for seed in 0..SEEDS {
        let (decided, searched, pending) = compared(rt.alloc(), seed)?;
        assert!(rt; decided == searched, "seed {seed}: {decided}, {searched}");
        if pending > 0 {
            tried.pending = tried.pending.saturating_add(1);
            tried.linearizable = tried.linearizable.saturating_add(u32::from(decided));
        }
    }
    Ok(tried)
}

#[test]
fn a_completion_decides_as_all_completions_together(rt: HostRuntime) -> Result<(), Fail> {
    let tried = compare_all(&rt)?;
    assert!(rt; tried.pending >= 5_000, "{tried:?}");
    assert!(rt; tried.linearizable >= 1_000, "{tried:?}");
    assert!(rt;
        tried.pending.saturating_sub(tried.linearizable) >= 1_000,
        "{tried:?}"
    );
    Ok(())
}
