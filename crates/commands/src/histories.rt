//! The commands that read a history, alone or with a verdict after it, and draw nothing.
ghost use Rattle.std.specs.Prelude.{IfSome, false, true};
ghost use Rattle.history_text.specs.Versions.{said_in};
ghost use Rattle.history_text.specs.declared.version.Version.{Version};
ghost use Rattle.commands.specs.Inputs.{IsClaimOf, IsFaultOfClaimInput, IsFaultOfHistoryInput, IsHistoryOf};
ghost use Rattle.commands.specs.Judging.{AnswersFor, AnswersOrNoMemory, Converts, Counts, IsSound};
ghost use Rattle.commands.specs.Judging.{Judges, Verifies};
ghost use Rattle.commands.specs.Outcomes.{answer_of, NamesPlaces};
ghost use Rattle.text_lines.specs.Input.{OfInput};

use crate::input::{claimed_of, given_history, history_of};
use crate::judging::{decide_under, verify_under};
use crate::outcome::{Outcome, Report};
use command_words::Condition;
use history_merge::History;
use history_stats::{overtakings_of, statistics_of};
use history_text::{TextSource, Version};
use parallel_finders::InPieces;
use std::alloc::Global;
use std::thread::Threads;
use verdicts::Claimed;

/// The number of pieces of the search for a cover in `check` and `stress`.
pub(crate) const PIECES: usize = 4;

/// Answers `check` for the text of a reader.
pub(crate) fn check<R, S>(rt: &R, alloc: Global, reader: S, condition: Condition) -> Outcome
where
    R: Threads + Sync,
    S: TextSource + Drop,
    ensures found { OfInput (S.ahead reader)
        (λ input. AnswersFor IsHistoryOf IsFaultOfHistoryInput (Judges condition) input (answer_of result)) }
    ensures places { NamesPlaces result }
{
    let (_version, history) = given_history(alloc, reader)?;
    let search = InPieces { rt, pieces: PIECES };
    let verdict = decide_under(&search, alloc, &history, condition)?;
    Ok(Report::Judged(history, verdict))
}

/// Answers `convert` for the text of a reader.
pub(crate) fn convert<S: TextSource + Drop>(alloc: Global, reader: S) -> Outcome
    ensures found { OfInput (S.ahead reader)
        (λ input. AnswersFor IsHistoryOf IsFaultOfHistoryInput Converts input (answer_of result)) }
    ensures places { NamesPlaces result }
{
    let (_version, history) = given_history(alloc, reader)?;
    Ok(Report::Converted(history))
}

/// Answers `stats` for the text of a reader: the statistics, or the dequeues that overtook values.
pub(crate) fn stats<S: TextSource + Drop>(alloc: Global, reader: S, overtakes: bool) -> Outcome
    ensures found { OfInput (S.ahead reader)
        (λ input. AnswersFor IsHistoryOf IsFaultOfHistoryInput (Counts overtakes) input (answer_of result)) }
    ensures places { NamesPlaces result }
{
    let (_version, history) = given_history(alloc, reader)?;
    if overtakes {
        return list_overtakings(alloc, &history);
    }
    count(alloc, &history)
}

/// Lists the dequeues that overtook values.
fn list_overtakings(alloc: Global, history: &History) -> Outcome
    requires { IsSound history.now }
    ensures found { (version : Version) → AnswersOrNoMemory (Counts true) (said_in version history.now)
        (answer_of result) }
    ensures places { NamesPlaces result }
{
    let overtakings = overtakings_of(alloc, history)?;
    Ok(Report::Overtaken(overtakings))
}

/// Counts the statistics of the history.
fn count(alloc: Global, history: &History) -> Outcome
    requires { IsSound history.now }
    ensures found { (version : Version) → AnswersOrNoMemory (Counts false) (said_in version history.now)
        (answer_of result) }
    ensures places { NamesPlaces result }
{
    let statistics = statistics_of(alloc, history)?;
    Ok(Report::Counted(statistics))
}

/// Answers `verify` for the texts of a reader.
pub(crate) fn verify<S: TextSource + Drop>(
    alloc: Global,
    reader: S,
    condition: Condition,
) -> Outcome
    ensures found { OfInput (S.ahead reader)
        (λ input. AnswersFor IsClaimOf IsFaultOfClaimInput (Verifies condition) input (answer_of result)) }
    ensures places { NamesPlaces result }
{
    let (gathered, claimed) = claimed_of(alloc, reader)?;
    let (_version, history) = history_of(gathered)?;
    verify_claim(alloc, &history, &claimed, condition)
}

/// Answers whether the claim is evidence in the history under the condition.
fn verify_claim(
    alloc: Global,
    history: &History,
    claimed: &Claimed,
    condition: Condition,
) -> Outcome
    requires complete { IsSound history.now }
    ensures found { (version : Version) → AnswersOrNoMemory (Verifies condition)
        (record { text = said_in version history.now; claimed = claimed.now }) (answer_of result) }
    ensures places { NamesPlaces result }
{
    let valid = verify_under(alloc, history, claimed, condition)?;
    Ok(Report::Verified(valid))
}
