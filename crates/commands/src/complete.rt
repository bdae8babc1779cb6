//! `complete`: the completion of a history whose calls may be pending.
ghost use Rattle.std.specs.Prelude.{◌≡◌, ◌≤◌, ◌↔◌, ◌⊎◌, [], All, IfOk, IfErr, IfSome, OnOk, IsTrue, length};
ghost use Rattle.completions.specs.Completed.{completed};
ghost use Rattle.event_records.specs.declared.limits.TheConstants.{MAX_EVENTS, MAX_INITIAL, MAX_THREAD};
ghost use Rattle.history_merge.specs.Initial.{IsCompleteFrom};
ghost use Rattle.history_text.specs.Histories.{HasHistoryText};
ghost use Rattle.history_text.specs.Versions.{HaveValueLines};
ghost use Rattle.commands.specs.Answers.{memory_fault};
ghost use Rattle.commands.specs.Completing.{Completes, CountsPending, IsCompletable, IsFaultOfPendingInput};
ghost use Rattle.commands.specs.Completing.{IsPendingOf, LacksCompletion};
ghost use Rattle.commands.specs.Judging.{AnswersFor, AnswersOrNoMemory};
ghost use Rattle.commands.specs.Outcomes.{answer_of, answer_of_fault, fault_of_completion, NamesPlaces};
ghost use Rattle.text_lines.specs.Input.{OfInput};

use crate::input::{gathered, pending_of};
use crate::outcome::{Fault, Outcome, Report};
use completions::{Completion, CompletionFault};
use history_merge::History;
use history_text::{EventList, PendingText, TextFault, TextSource, Values, Version};
use packed_events::PackedEvent;
use std::alloc::{AllocError, Global};

/// Answers `complete` for the text of a reader. With `takes_cut` the text may be cut off.
pub(crate) fn complete<S: TextSource + Drop>(alloc: Global, reader: S, takes_cut: bool) -> Outcome
    ensures found { OfInput (S.ahead reader)
        (λ input. AnswersFor (IsPendingOf takes_cut) (IsFaultOfPendingInput takes_cut) Completes input
        (answer_of result)) }
    ensures places { NamesPlaces result }
{
    let text = pending_of(alloc, reader, takes_cut)?;
    completion_of(alloc, text)
}

/// Answers `complete` for a text.
fn completion_of(alloc: Global, text: PendingText) -> Outcome
    requires lines { HaveValueLines text.version text.initial × HasHistoryText text.events }
    ensures found { AnswersOrNoMemory Completes text (answer_of result) }
    ensures places { NamesPlaces result }
{
    let (version, initial, events) = completed(alloc, text)?;
    Ok(Report::Completed(version, initial, EventList::from_vec(events)))
}

/// Returns the version, the initial values and the events of the completion of a text.
pub(crate) fn completed(
    alloc: Global,
    text: PendingText,
) -> Result<(Version, Values, Vec<PackedEvent>), Fault>
    requires lines { HaveValueLines text.version text.initial × HasHistoryText text.events }
    ensures same { IfOk result (λ made. (made.0 ≡ text.version) × (made.1 ≡ text.initial)) }
    ensures completed { IfOk result (λ made. made.2.items ≡ completed text.initial text.events) }
    ensures complete { IfOk result (λ made. IsCompleteFrom text.initial made.2.items) }
    ensures few { IfOk result (λ made. length made.2.items ≤ MAX_EVENTS) }
    ensures completable { OnOk result (IsCompletable text) }
    ensures fault { IfErr result (λ fault. LacksCompletion text (answer_of_fault fault)
        ⊎ (answer_of_fault fault ≡ memory_fault)) }
{
    let PendingText {
        version,
        initial,
        events,
        open_calls,
    } = text;
    let made = match completions::complete(alloc, initial.as_slice(), events.into_vec()) {
        Ok(made) => made,
        Err(fault) => return Err(refusal_of(fault)),
    };
    let Completion { events, pending } = made;
    if !counts(open_calls, pending) {
        return Err(Fault::Text(TextFault::Count));
    }
    Ok((version, initial, events))
}

/// Converts the reason why a history has no completion.
fn refusal_of(fault: CompletionFault) -> Fault
    ensures { result ≡ fault_of_completion fault }
{
    match fault {
        CompletionFault::History(fault) => Fault::from(fault),
        CompletionFault::Limit => Fault::Limit,
    }
}

/// Returns whether a text counts its pending calls rightly, if it counts them.
fn counts(open_calls: Option<usize>, pending: usize) -> bool
    ensures { IsTrue result ↔ IfSome open_calls (λ calls. calls ≡ pending) }
{
    match open_calls {
        Some(calls) => calls == pending,
        None => true,
    }
}

/// Returns the history of a completion.
pub(crate) fn history_of_completion(
    alloc: Global,
    initial: Vec<u64>,
    events: &[PackedEvent],
) -> Result<History, AllocError>
    requires few_initial { length initial.items ≤ MAX_INITIAL }
    requires few_events { length events.now ≤ MAX_EVENTS }
    requires whole { IsCompleteFrom initial.items events.now }
    ensures { IfOk result (λ history. (history.initial ≡ initial.items) × (history.events ≡ events.now)) }
{
    match gathered(alloc, initial, events).finish() {
        Ok(history) => Ok(history),
        Err(_) => Err(AllocError),
    }
}
