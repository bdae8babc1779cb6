//! The inputs of commands.
ghost use Rattle.std.specs.Prelude.{◌≡◌, ◌≤◌, ℕ, List, [], false, length, true, vec_len, IfOk, IfErr, IfSome, OnOk};
ghost use Rattle.event_records.specs.declared.event.Event.{Event};
ghost use Rattle.event_records.specs.declared.limits.TheConstants.{MAX_EVENTS, MAX_INITIAL};
ghost use Rattle.history_merge.specs.Clashes.{IsClash};
ghost use Rattle.history_merge.specs.Gathering.{HasGathered};
ghost use Rattle.history_merge.specs.Initial.{IsCompleteFrom};
ghost use Rattle.history_text.specs.Histories.{HasHistoryText};
ghost use Rattle.commands.specs.Completing.{IsFaultOfPendingInput, IsPendingOf};
ghost use Rattle.history_text.specs.Versions.{HasText, HaveValueLines, HistoryText, IsReadAs, said_in};
ghost use Rattle.history_text.specs.Schedules.{IsSetting};
ghost use Rattle.commands.specs.Inputs.{IsHistoryOf, IsFaultOfHistoryInput, IsScheduleOf, IsFaultOfScheduleInput};
ghost use Rattle.commands.specs.Inputs.{IsClaimOf, IsFaultOfClaimInput};
ghost use Rattle.commands.specs.Inputs.{IsDrawableOf, IsFaultOfDrawableInput, IsFaultOfDrawnText};
ghost use Rattle.commands.specs.Inputs.{drawable, history_in, of_yes};
ghost use Rattle.commands.specs.Inner.Inputs.{BeginsAsYes, HasLines, drawable_in};
ghost use Rattle.history_text.specs.Claims.{operation_format};
ghost use Rattle.history_text.specs.Items.{HaveLines};
ghost use Rattle.history_text.specs.Reading.{Fails, HasVerdictTextFault, OfLeft, Takes};
ghost use Rattle.commands.specs.Judging.{IsFaulty, AnswersFor, AnswersOrNoMemory, said_by};
ghost use Rattle.commands.specs.Answers.{answer_of_history_fault};
ghost use Rattle.commands.specs.Outcomes.{NamesClash, answer_of_fault};
ghost use Rattle.text_lines.specs.Input.{OfInput};

use crate::outcome::{Fault, Incomplete};
use history_merge::{Clash, History, HistoryBuilder, HistoryFault};
use history_text::{
    PendingText, Schedule, TextFault, TextReader, TextSource, Version, at_end, peek, read_history,
    read_pending, read_schedule, read_verdict,
};
use packed_events::PackedEvent;
use std::alloc::{AllocError, Global};
use verdicts::{Claimed, Lines};

/// A history builder, and the version of the text that it was read from.
pub(crate) type Gathered = (Version, HistoryBuilder);

/// Reads the one text of a history, of either version.
fn gathered_of<S: TextSource + Drop>(alloc: Global, reader: S) -> Result<Gathered, TextFault>
    ensures text { IfOk result (λ read. (text : HistoryText) × HasText text × IsReadAs text read.0 read.1
        × OfInput (S.ahead reader)
        (λ input. IsHistoryOf input text)) }
    ensures fault { IfErr result (λ fault. OfInput (S.ahead reader) (λ input. IsFaultOfHistoryInput input fault)) }
{
    let mut texts = TextReader::new(reader);
    let gathered = read_history(alloc, &mut texts)?;
    at_end(&mut texts)?;
    Ok(gathered)
}

/// Reads the one text of a history whose calls may be pending; with `takes_cut` as far as it goes.
pub(crate) fn pending_of<S: TextSource + Drop>(
    alloc: Global,
    reader: S,
    takes_cut: bool,
) -> Result<PendingText, TextFault>
    ensures text { IfOk result (λ text. OfInput (S.ahead reader) (λ input. IsPendingOf takes_cut input text)) }
    ensures lines { IfOk result (λ text. HaveValueLines text.version text.initial × HasHistoryText text.events) }
    ensures fault { IfErr result (λ fault. OfInput (S.ahead reader)
        (λ input. IsFaultOfPendingInput takes_cut input fault)) }
{
    let mut texts = TextReader::new(reader);
    let (text, is_whole) = read_pending(alloc, &mut texts, takes_cut)?;
    if is_whole {
        at_end(&mut texts)?;
    }
    Ok(text)
}

/// Reads the text of a history and the claim of the verdict text after it.
pub(crate) fn claimed_of<S: TextSource + Drop>(
    alloc: Global,
    reader: S,
) -> Result<(Gathered, Claimed), TextFault>
    ensures claim { IfOk result (λ read. (text : HistoryText) × HasText text × IsReadAs text read.0.0 read.0.1
        × OfInput (S.ahead reader)
        (λ input. IsClaimOf input (record { text = text; claimed = read.1 }))) }
    ensures fault { IfErr result (λ fault. OfInput (S.ahead reader) (λ input. IsFaultOfClaimInput input fault)) }
{
    let mut texts = TextReader::new(reader);
    let gathered = read_history(alloc, &mut texts)?;
    let claimed = read_verdict(alloc, &mut texts)?;
    Ok((gathered, claimed))
}

/// The input of `draw`.
#[derive(Drop)]
pub(crate) enum DrawableInput {
    /// A text, and the claim of the verdict after it if there is one.
    Text(PendingText, Option<Claimed>),
    /// The lines of a `YES` without a history.
    Yes(Lines),
}

/// Reads the text of a history, and the claim of the verdict text after it if anything follows; or a text that counts
/// its pending calls, after which nothing may follow; or a `YES` alone.
pub(crate) fn drawable_of<S: TextSource + Drop>(
    alloc: Global,
    reader: S,
) -> Result<DrawableInput, TextFault>
    ensures drawable { IfOk result (λ read. OfInput (S.ahead reader)
        (λ input. IsDrawableOf input (drawable_in read))) }
    ensures lines { IfOk result HasLines }
    ensures fault { IfErr result (λ fault. OfInput (S.ahead reader) (λ input. IsFaultOfDrawableInput input fault)) }
{
    let mut texts = TextReader::new(reader);
    if begins_as_yes(&mut texts)? {
        let lines = yes_of(alloc, &mut texts)?;
        return Ok(DrawableInput::Yes(lines));
    }
    let (text, claimed) = text_of(alloc, &mut texts)?;
    Ok(DrawableInput::Text(text, claimed))
}

/// Returns whether the input begins as a `YES`. Takes no byte.
fn begins_as_yes<S: TextSource>(texts: &mut TextReader<S>) -> Result<bool, TextFault>
    requires running { texts.old.is_stopped ≡ false }
    ensures left { OnOk result (Takes texts.old.left texts.new.left []) }
    ensures begins { IfOk result (BeginsAsYes texts.new.left) }
    ensures fault { IfErr result (λ fault. (fault ≡ TextFault.Read) × OfLeft texts.old.left Fails) }
    ensures lines { texts.new.lines ≡ texts.old.lines }
    ensures running { OnOk result (texts.new.is_stopped ≡ false) }
{
    let next = peek(texts)?;
    match next {
        Some(byte) => return Ok(byte == b'Y'),
        None => return Ok(false),
    }
}

/// Reads the `YES` that is all of the input.
fn yes_of<S: TextSource>(alloc: Global, texts: &mut TextReader<S>) -> Result<Lines, TextFault>
    requires running { texts.old.is_stopped ≡ false }
    requires lines { texts.old.lines ≡ 0 }
    requires begins { BeginsAsYes texts.old.left true }
    ensures yes { IfOk result (λ lines. OfLeft texts.old.left (λ input. IsDrawableOf input (of_yes lines))) }
    ensures lines { IfOk result (HaveLines operation_format) }
    ensures fault { IfErr result (HasVerdictTextFault 0 texts.old.left) }
{
    let claimed = read_verdict(alloc, texts)?;
    match claimed {
        Claimed::Yes(lines) => return Ok(lines),
        Claimed::No(_, _) => unreachable!("a `NO` doesn't begin with a `Y`"),
    }
}

/// Reads a text from the beginning of the input, and the claim of the verdict text after a history if anything
/// follows. Nothing may follow a text that counts its pending calls.
fn text_of<S: TextSource>(
    alloc: Global,
    texts: &mut TextReader<S>,
) -> Result<(PendingText, Option<Claimed>), TextFault>
    requires running { texts.old.is_stopped ≡ false }
    requires lines { texts.old.lines ≡ 0 }
    ensures drawable { IfOk result (λ read. OfLeft texts.old.left
        (λ input. IsDrawableOf input (drawable read.0 read.1))) }
    ensures lines { IfOk result (λ read. HaveValueLines read.0.version read.0.initial × HasHistoryText read.0.events) }
    ensures fault { IfErr result (λ fault. OfLeft texts.old.left (λ input. IsFaultOfDrawnText input fault)) }
{
    let (text, _is_whole) = read_pending(alloc, texts, false)?;
    if text.open_calls.is_some() {
        at_end(texts)?;
        return Ok((text, None));
    }
    let next = peek(texts)?;
    if next.is_none() {
        return Ok((text, None));
    }
    let claimed = read_verdict(alloc, texts)?;
    Ok((text, Some(claimed)))
}

/// Reads the one history, and returns it with the version of its text.
pub(crate) fn given_history<S: TextSource + Drop>(
    alloc: Global,
    reader: S,
) -> Result<(Version, History), Fault>
    ensures history { IfOk result (λ read. OfInput (S.ahead reader)
        (λ input. IsHistoryOf input (said_in read.0 read.1))) }
    ensures has { IfOk result (λ read. HasText (said_in read.0 read.1)) }
    ensures complete { IfOk result (λ read. IsCompleteFrom read.1.initial read.1.events) }
    ensures fault { IfErr result (λ fault. OfInput (S.ahead reader) (λ input.
        AnswersFor IsHistoryOf IsFaultOfHistoryInput (λ text. IsFaulty (said_by text)) input
        (answer_of_fault fault))) }
{
    let gathered = gathered_of(alloc, reader)?;
    history_of(gathered)
}

/// Returns a builder with these initial values and events.
pub(crate) fn gathered(alloc: Global, initial: Vec<u64>, events: &[PackedEvent]) -> HistoryBuilder
    requires few_initial { vec_len initial ≤ MAX_INITIAL }
    requires few_events { length events.now ≤ MAX_EVENTS }
    ensures { HasGathered initial.items events.now result }
{
    let mut builder = HistoryBuilder::new(alloc, initial);
    for event in events {
        builder.add(event.unpack());
    }
    builder
}

/// Returns a builder with the initial values and events of a text, and the version of the text.
fn gathered_from(alloc: Global, text: &PendingText) -> Result<Gathered, AllocError>
    requires lines { HaveValueLines text.now.version text.now.initial × HasHistoryText text.now.events }
    ensures { IfOk result (λ read. IsReadAs (history_in text.now) read.0 read.1) }
{
    let initial = Vec::from_slice(alloc, text.initial.as_slice())?;
    Ok((
        text.version,
        gathered(alloc, initial, text.events.as_slice()),
    ))
}

/// Returns the history of a text.
pub(crate) fn history_in(alloc: Global, text: &PendingText) -> Result<History, Fault>
    requires lines { HaveValueLines text.now.version text.now.initial × HasHistoryText text.now.events }
    ensures history { IfOk result (λ history. said_in text.now.version history ≡ history_in text.now) }
    ensures fault { IfErr result (λ fault. AnswersOrNoMemory IsFaulty (said_by (history_in text.now))
        (answer_of_fault fault)) }
    ensures clash { IfErr result (NamesClash text.now.initial text.now.events) }
{
    let gathered = gathered_from(alloc, text)?;
    let (_version, history) = history_of(gathered)?;
    Ok(history)
}

/// Finishes the history of a text, and returns it with the version of the text.
pub(crate) fn history_of(gathered: Gathered) -> Result<(Version, History), Fault>
    ensures history { (text : HistoryText) → HasText text → IsReadAs text gathered.0 gathered.1
        → IfOk result (λ read. said_in read.0 read.1 ≡ text) }
    ensures complete { IfOk result (λ read. IsCompleteFrom read.1.initial read.1.events) }
    ensures fault { (text : HistoryText) → HasText text → IsReadAs text gathered.0 gathered.1
        → IfErr result (λ fault. AnswersOrNoMemory IsFaulty (said_by text) (answer_of_fault fault)) }
    ensures clash { (text : HistoryText) → HasText text → IsReadAs text gathered.0 gathered.1
        → IfErr result (NamesClash text.initial text.events) }
{
    let (version, builder) = gathered;
    let clash = builder.clash();
    match builder.finish() {
        Ok(history) => Ok((version, history)),
        Err(fault) => Err(incomplete(fault, clash)),
    }
}

/// Adds the clash to a fault that it explains.
fn incomplete(fault: HistoryFault, clash: Option<Clash>) -> Fault
    ensures fault { answer_of_fault result ≡ answer_of_history_fault fault }
    ensures clash { (initial : List ℕ) (events : List Event) → IfSome clash (IsClash initial events)
        → NamesClash initial events result }
{
    let clash = match clash {
        Some(found) if found.fault() == fault => Some(found),
        _ => None,
    };
    Fault::History(Incomplete { fault, clash })
}

/// Reads the one schedule.
pub(crate) fn schedule_of<S: TextSource + Drop>(
    alloc: Global,
    reader: S,
) -> Result<Schedule, TextFault>
    ensures schedule { IfOk result (λ schedule. OfInput (S.ahead reader) (λ input. IsScheduleOf input schedule)) }
    ensures setting { IfOk result (λ schedule. IsSetting schedule.threads schedule.ring) }
    ensures fault { IfErr result (λ fault. OfInput (S.ahead reader) (λ input. IsFaultOfScheduleInput input fault)) }
{
    let mut text = TextReader::new(reader);
    let schedule = read_schedule(alloc, &mut text)?;
    at_end(&mut text)?;
    Ok(schedule)
}
