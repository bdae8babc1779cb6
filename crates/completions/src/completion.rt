//! The completion of a history.
ghost use Rattle.std.specs.Prelude.{◌≡◌, ◌≢◌, ℕ, ◌≤◌, ◌+◌, ◌++◌, List, All, IfErr};
ghost use Rattle.std.specs.Prelude.{IfOk, OnOk, false, length, filter, not, take};
ghost use Rattle.event_records.specs.declared.limits.TheConstants.{MAX_EVENTS, MAX_INITIAL, MAX_THREAD};
ghost use Rattle.event_records.specs.declared.limits.TheConstants.{MAX_THREADS, MAX_TICKET};
ghost use Rattle.history_merge.specs.Gathering.{HasGathered};
ghost use Rattle.history_merge.specs.Initial.{IsCompleteFrom};
ghost use Rattle.history_merge.specs.declared.fault.HistoryFault.TheVariants.{Pending};
ghost use Rattle.completions.specs.declared.fault.CompletionFault.TheVariants.{History};
ghost use Rattle.event_records.specs.declared.event.Event.{Event};
ghost use Rattle.completions.specs.Completed.{completed, is_left_out, is_pending};
ghost use Rattle.completions.specs.Completed.{next_ticket, pending_calls, returns_from};
ghost use Rattle.completions.specs.Faults.{IsBeyondLimits, IsCompletionFault, MayBePending};
ghost use Rattle.completions.specs.Inner.Walk.{AreLast, HasWalked};
ghost use Rattle.completions.specs.Pending.{IsDeciding, IsHistoryFrom};

use crate::answers::{Answer, answers_to, is_answered};
use crate::fault::CompletionFault;
use crate::given::sort_given;
use crate::pending::{first_pending, is_pending, pending_calls};
use crate::walk::Walk;
use event_records::{Event, MAX_EVENTS, MAX_TICKET};
use history_merge::{HistoryBuilder, HistoryFault};
use packed_events::PackedEvent;
use std::alloc::{AllocError, Global};

/// Returns whether the event is a pending call without an answer.
#[inline(always)]
fn is_left_out(last: &[Option<Event>], answers: &[Answer], event: Event) -> bool
    requires thread { event.thread ≤ MAX_THREAD }
    requires sized { length last.now ≡ MAX_THREADS }
    ensures { (events : List Event) → AreLast events last.now → result ≡ is_left_out events answers.now event }
{
    is_pending(last, event) && !is_answered(answers, event)
}

/// Removes the pending calls without an answer. No call before place `from` is pending.
fn leave_out(events: &mut Vec<PackedEvent>, last: &[Option<Event>], answers: &[Answer], from: usize)
    requires threads { All (λ e. e.thread ≤ MAX_THREAD) events.old.items }
    requires last { AreLast events.old.items last.now }
    requires before { All (λ e. is_pending events.old.items e ≡ false) (take from events.old.items) }
    requires within { from ≤ length events.old.items }
    ensures { events.new.items ≡ filter (λ e. not (is_left_out events.old.items answers.now e)) events.old.items }
{
    let mut kept = from;
    for place in from..events.len() {
        let event = events[place];
        if !is_left_out(last, answers, event.unpack()) {
            if kept != place {
                events[kept] = event;
            }
            kept += 1;
        }
    }
    events.truncate(kept);
}

/// Adds the returns of answered calls, one ticket after another from `ticket` on.
fn push_returns(
    full: &mut Vec<PackedEvent>,
    answers: &[Answer],
    ticket: u64,
) -> Result<(), AllocError>
    requires { ticket + length answers.now ≤ MAX_TICKET + 1 }
    ensures { OnOk result (full.new.items ≡ full.old.items ++ returns_from ticket answers.now) }
{
    let mut ticket = ticket;
    for answer in answers {
        full.push(PackedEvent::new(Event {
            ticket,
            thread: answer.call.thread,
            what: answer.what,
        }))?;
        ticket += 1;
    }
    Ok(())
}

/// Returns the ticket of the first return that a completion of these events adds: one above the last ticket, or 0
/// without events.
pub fn next_ticket(events: &[PackedEvent]) -> u64
    requires { All (λ e. e.ticket ≤ MAX_TICKET) events.now }
    ensures next { result ≡ next_ticket events.now }
    ensures small { result ≤ MAX_TICKET + 1 }
{
    match events.last() {
        Some(last) => last.unpack().ticket + 1,
        None => 0,
    }
}

/// Returns the fault unless it is that a call is pending.
fn allow_pending(fault: HistoryFault) -> Result<(), CompletionFault>
    ensures pending { OnOk result ((ticket : ℕ) × (fault ≡ Pending ticket)) }
    ensures other { IfErr result (λ f. (f ≡ History fault) × ((ticket : ℕ) → fault ≢ Pending ticket)) }
{
    match fault {
        HistoryFault::Pending(_) => Ok(()),
        _ => Err(CompletionFault::History(fault)),
    }
}

/// Copies these values.
fn copied(alloc: Global, values: &[u64]) -> Result<Vec<u64>, AllocError>
    ensures { IfOk result (λ copy. copy.items ≡ values.now) }
{
    values.iter().copied().collect(alloc)
}

/// Returns the fault of the events, unless it is that a call is pending.
fn check_history(builder: HistoryBuilder) -> Result<(), CompletionFault>
    ensures found { (initial : List ℕ) (events : List Event) → HasGathered initial events builder
        → OnOk result (MayBePending initial events) }
    ensures fault { (initial : List ℕ) (events : List Event) → HasGathered initial events builder
        → IfErr result (IsCompletionFault initial events) }
{
    match builder.finish() {
        Ok(_) => Ok(()),
        Err(fault) => allow_pending(fault),
    }
}

/// Walks over the events, and judges them as [`history_merge::history_from`] does, except that calls may be pending.
fn walk_history(
    alloc: Global,
    initial: &[u64],
    events: &[PackedEvent],
) -> Result<Walk, CompletionFault>
    requires few_initial { length initial.now ≤ MAX_INITIAL }
    requires few_events { length events.now ≤ MAX_EVENTS }
    ensures found { OnOk result (MayBePending initial.now events.now) }
    ensures walked { IfOk result (HasWalked events.now) }
    ensures fault { IfErr result (IsCompletionFault initial.now events.now) }
{
    let values = copied(alloc, initial)?;
    let mut builder = HistoryBuilder::new(alloc, values);
    let mut walk = Walk::new(alloc);
    for event in events {
        let event = event.unpack();
        builder.add(event);
        walk.note(event)?;
    }
    check_history(builder)?;
    Ok(walk)
}

/// The completion of a history.
#[derive(Drop)]
pub struct Completion {
    pub events: Vec<PackedEvent>,
    /// The number of calls that were pending.
    pub pending: usize,
}

/// Completes a history, given the result of a walk over it.
fn complete_history(
    alloc: Global,
    initial: &[u64],
    events: Vec<PackedEvent>,
    walk: Walk,
) -> Result<Completion, CompletionFault>
    requires few_initial { length initial.now ≤ MAX_INITIAL }
    requires history { IsHistoryFrom initial.now events.items }
    requires found { MayBePending initial.now events.items }
    requires walked { HasWalked events.items walk }
    ensures completed { IfOk result (λ made. made.events.items ≡ completed initial.now events.items) }
    ensures pending { IfOk result (λ made. made.pending ≡ length (pending_calls events.items)) }
    ensures within { OnOk result (¬ (IsBeyondLimits initial.now events.items)) }
    ensures fault { IfErr result (IsCompletionFault initial.now events.items) }
{
    let Walk {
        last,
        mut given,
        taken,
    } = walk;
    sort_given(&mut given);
    let from = first_pending(events.as_slice(), &last);
    let calls = pending_calls(alloc, events.as_slice(), &last, from)?;
    let answers = answers_to(
        alloc,
        initial,
        given.as_slice(),
        taken.as_slice(),
        calls.as_slice(),
    )?;
    let ticket = next_ticket(events.as_slice());
    let mut full = events;
    leave_out(&mut full, &last, answers.as_slice(), from);
    let count = answers.len();
    if full.len().saturating_add(count) > MAX_EVENTS || ticket + count as u64 > MAX_TICKET + 1 {
        return Err(CompletionFault::Limit);
    }
    push_returns(&mut full, answers.as_slice(), ticket)?;
    Ok(Completion {
        events: full,
        pending: calls.len(),
    })
}

/// Completes a history in which calls may be pending, of a queue that holds these initial values (Herlihy and Wing
/// 1990, section 2.2). The completion has a linearization if and only if some completion has one.
///
/// A pending enqueue returns as successful if a dequeue gave its value; otherwise its call is removed. The pending
/// dequeues give, in the order of their calls, the values that no dequeue gave: the initial ones first, in their
/// order, and then those of successful enqueues by their returns. A dequeue for which no value remains is removed.
/// The added returns come after the last event, those of enqueues first. A complete history is returned unchanged.
///
/// `History` has the first fault as [`history_merge::history_from`] names it, unless that is `Pending`. `Limit` comes
/// if the completion has more than `MAX_EVENTS` events or a ticket above `MAX_TICKET`. Takes O(n log n) time for n
/// events and initial values, and memory in proportion, besides that of the events, which are completed in place.
pub fn complete(
    alloc: Global,
    initial: &[u64],
    events: Vec<PackedEvent>,
) -> Result<Completion, CompletionFault>
    requires few_initial { length initial.now ≤ MAX_INITIAL }
    requires few_events { length events.items ≤ MAX_EVENTS }
    ensures deciding { IfOk result (λ made. IsDeciding initial.now events.items made.events.items) }
    ensures completed { IfOk result (λ made. made.events.items ≡ completed initial.now events.items) }
    ensures pending { IfOk result (λ made. made.pending ≡ length (pending_calls events.items)) }
    ensures few { IfOk result (λ made. length made.events.items ≤ MAX_EVENTS) }
    ensures within { OnOk result (¬ (IsBeyondLimits initial.now events.items)) }
    ensures found { OnOk result (MayBePending initial.now events.items) }
    ensures same { IfOk result (λ made. IsCompleteFrom initial.now events.items → made.events.items ≡ events.items) }
    ensures fault { IfErr result (IsCompletionFault initial.now events.items) }
{
    let walk = walk_history(alloc, initial, events.as_slice())?;
    complete_history(alloc, initial, events, walk)
}
