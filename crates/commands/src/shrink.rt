//! `shrink`: a minimal part of a history that doesn't meet a condition.
ghost use Rattle.std.specs.Prelude.{[], ◌≡◌, ◌≤◌, Bool, false, length, true};
ghost use Rattle.commands.specs.Conditions.{emptiness_if};
ghost use Rattle.commands.specs.Inputs.{IsFaultOfHistoryInput, IsHistoryOf};
ghost use Rattle.commands.specs.Judging.{AnswersFor, AnswersOrNoMemory, IsShrunk, Shrinks};
ghost use Rattle.command_words.specs.Options.{linearizability};
ghost use Rattle.commands.specs.Outcomes.{NamesPlaces, answer_of};
ghost use Rattle.command_words.specs.declared.options.Condition.{Condition};
ghost use Rattle.event_records.specs.declared.limits.TheConstants.{MAX_INITIAL};
ghost use Rattle.history_merge.specs.Initial.{IsCompleteFrom};
ghost use Rattle.history_merge.specs.Legal.{IsLinearizable};
ghost use Rattle.history_merge.specs.Operations.{operations_of};
ghost use Rattle.history_text.specs.Versions.{said_in};
ghost use Rattle.history_text.specs.declared.version.Version.TheVariants.{One};
ghost use Rattle.value_match.specs.Outcome.{IsChosenViolation};
ghost use Rattle.text_lines.specs.Input.{OfInput};

use crate::input::given_history;
use crate::judging::emptiness_of;
use crate::outcome::{Outcome, Report};
use command_words::Condition;
use conditions::{
    Emptiness, LocalVerdict, decide_local, decide_weakly_empty, selection, without_empties,
};
use history_merge::History;
use history_text::{TextSource, Version};
use std::alloc::Global;
use value_match::Violation;
use verdicts::{Verdict, decide};

/// Answers `shrink` for the text of a reader.
pub(crate) fn shrink<S: TextSource + Drop>(
    alloc: Global,
    reader: S,
    condition: Condition,
) -> Outcome
    ensures found { OfInput (S.ahead reader)
        (λ input. AnswersFor IsHistoryOf IsFaultOfHistoryInput (Shrinks condition) input (answer_of result)) }
    ensures places { NamesPlaces result }
{
    let (version, history) = given_history(alloc, reader)?;
    if condition.is_local {
        shrink_locally(alloc, version, history, emptiness_of(condition))
    } else if condition.is_weakly_empty {
        shrink_weakly(alloc, version, history)
    } else {
        shrink_history(alloc, version, history)
    }
}

/// Answers `shrink` for a history, of a text of this version.
fn shrink_history(alloc: Global, version: Version, history: History) -> Outcome
    requires version { version ≡ One → history.initial ≡ [] }
    requires complete { IsCompleteFrom history.initial history.events }
    ensures found { AnswersOrNoMemory (Shrinks linearizability) (said_in version history) (answer_of result) }
    ensures places { NamesPlaces result }
{
    match decide(alloc, &history)? {
        Verdict::Yes(order) => Ok(Report::Judged(history, Verdict::Yes(order))),
        Verdict::No(violation) => shrink_violation(alloc, version, &history, &violation),
    }
}

/// Answers `shrink` for a history whose empty dequeues promise nothing.
fn shrink_weakly(alloc: Global, version: Version, history: History) -> Outcome
    requires version { version ≡ One → history.initial ≡ [] }
    requires complete { IsCompleteFrom history.initial history.events }
    requires few { length history.initial ≤ MAX_INITIAL }
    ensures found { AnswersOrNoMemory (Shrinks (record { is_local = false; is_weakly_empty = true }))
        (said_in version history) (answer_of result) }
    ensures places { NamesPlaces result }
{
    match decide_weakly_empty(alloc, &history)? {
        Verdict::Yes(order) => Ok(Report::Judged(history, Verdict::Yes(order))),
        Verdict::No(_violation) => {
            let part = without_empties(alloc, &history)?;
            shrink_part(alloc, version, &part)
        }
    }
}

/// Answers `shrink` for a history in which each producer's values are judged alone.
fn shrink_locally(
    alloc: Global,
    version: Version,
    history: History,
    emptiness: Emptiness,
) -> Outcome
    requires version { version ≡ One → history.initial ≡ [] }
    requires complete { IsCompleteFrom history.initial history.events }
    requires few { length history.initial ≤ MAX_INITIAL }
    ensures found { (is_weak : Bool) → emptiness ≡ emptiness_if is_weak
        → AnswersOrNoMemory (Shrinks (record { is_local = true; is_weakly_empty = is_weak })) (said_in version history)
        (answer_of result) }
    ensures places { NamesPlaces result }
{
    match decide_local(alloc, &history, emptiness)? {
        LocalVerdict::Yes(orders) => {
            let verdict = LocalVerdict::Yes(orders).into_verdict(alloc)?;
            Ok(Report::Judged(history, verdict))
        }
        LocalVerdict::No(producer, _violation) => {
            let part = selection(alloc, &history, producer, emptiness)?;
            shrink_part(alloc, version, &part)
        }
    }
}

/// Shrinks a part of a history that isn't linearizable, of a text of this version.
fn shrink_part(alloc: Global, version: Version, part: &History) -> Outcome
    requires version { version ≡ One → part.now.initial ≡ [] }
    requires complete { IsCompleteFrom part.now.initial part.now.events }
    requires no { ¬ (IsLinearizable part.now.initial (operations_of part.now.events)) }
    ensures found { AnswersOrNoMemory IsShrunk (said_in version part.now) (answer_of result) }
    ensures places { NamesPlaces result }
{
    match decide(alloc, part)? {
        Verdict::Yes(_order) => unreachable!(),
        Verdict::No(violation) => shrink_violation(alloc, version, part, &violation),
    }
}

/// Shrinks a history to its chosen violation, of a text of this version.
fn shrink_violation(
    alloc: Global,
    version: Version,
    history: &History,
    violation: &Violation,
) -> Outcome
    requires version { version ≡ One → history.now.initial ≡ [] }
    requires chosen { IsChosenViolation history.now.initial (operations_of history.now.events) violation.now }
    requires complete { IsCompleteFrom history.now.initial history.now.events }
    requires no { ¬ (IsLinearizable history.now.initial (operations_of history.now.events)) }
    ensures found { AnswersOrNoMemory IsShrunk (said_in version history.now) (answer_of result) }
    ensures places { NamesPlaces result }
{
    let small = verdicts::shrink(alloc, history, violation)?;
    let verdict = decide(alloc, &small)?;
    Ok(Report::Shown(version, small, verdict))
}
