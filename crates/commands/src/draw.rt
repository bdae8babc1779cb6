//! `draw`: the picture of a history and a verdict on it.
ghost use Rattle.std.specs.Prelude.{◌≡◌, ◌≤◌, ℕ, IfOk, IfErr, OnOk, None, Option, false, length, true};
ghost use Rattle.event_records.specs.declared.limits.TheConstants.{MAX_INITIAL};
ghost use Rattle.drawing.specs.Claim.{count_of_lines};
ghost use Rattle.drawing.specs.Drawn.{drawn_operations};
ghost use Rattle.drawing.specs.Scene.{scene_on, scene_of};
ghost use Rattle.history_text.specs.declared.version.Version.{Version};
ghost use Rattle.history_text.specs.Histories.{HasHistoryText};
ghost use Rattle.history_text.specs.Versions.{HaveValueLines, said_in};
ghost use Rattle.commands.specs.Answers.{refused_orders, refused_size};
ghost use Rattle.commands.specs.Conditions.{IsTrueUnder};
ghost use Rattle.commands.specs.Drawing.{Draws, DrawsAlone, DrawsClaim, DrawsDecided, DrawsPart, DrawsPending};
ghost use Rattle.commands.specs.Drawing.{DrawsSound, DrawsYes};
ghost use Rattle.commands.specs.Drawing.{IsOneOrder, picture_in, strict};
ghost use Rattle.conditions.specs.Conditions.{without_empties};
ghost use Rattle.verdicts.specs.Selection.{ArePartOf, contents_of};
ghost use Rattle.commands.specs.Inputs.{IsDrawableOf, IsFaultOfDrawableInput, claim_on, drawable, history_in};
ghost use Rattle.commands.specs.Judging.{AnswersFor, AnswersOrNoMemory, IsSound, IsVerdictClaim};
ghost use Rattle.commands.specs.Outcomes.{answer_of, answer_of_fault, NamesPlaces};
ghost use Rattle.text_lines.specs.Input.{OfInput};

use crate::complete::{completed, history_of_completion};
use crate::input::{DrawableInput, drawable_of, history_in};
use crate::judging::{decide_under, verify_under};
use crate::operations::history_of_operations;
use crate::outcome::{Fault, Outcome, Report};
use command_words::{Condition, DrawOptions, PictureForm};
use completions::next_ticket;
use conditions::without_empties;
use drawing::{MOST_DRAWN, Scene, count_of_lines, drawn_operations, scene_of, terminal_picture};
use history_merge::{History, Operation};
use history_text::{PendingText, TextSource};
use parallel_finders::OnePiece;
use std::alloc::{AllocError, Global};
use svg_picture::{html_picture, svg_picture};
use verdicts::{Claimed, Lines, claim};

/// Answers `draw` for the text of a reader.
pub(crate) fn draw<S: TextSource + Drop>(alloc: Global, reader: S, options: DrawOptions) -> Outcome
    ensures found { OfInput (S.ahead reader)
        (λ input. AnswersFor IsDrawableOf IsFaultOfDrawableInput (Draws options) input (answer_of result)) }
    ensures places { NamesPlaces result }
{
    let read = drawable_of(alloc, reader)?;
    match read {
        DrawableInput::Text(text, claimed) => return draw_read(alloc, text, claimed, options),
        DrawableInput::Yes(lines) => return draw_yes(alloc, lines, options),
    }
}

/// Draws a text, with the claim if there is one.
fn draw_read(
    alloc: Global,
    text: PendingText,
    claimed: Option<Claimed>,
    options: DrawOptions,
) -> Outcome
    requires lines { HaveValueLines text.version text.initial × HasHistoryText text.events }
    ensures found { AnswersOrNoMemory (Draws options) (drawable text claimed) (answer_of result) }
    ensures places { NamesPlaces result }
{
    match claimed {
        Some(claimed) => draw_claimed(alloc, &text, &claimed, options),
        None => draw_alone(alloc, text, options),
    }
}

/// Draws the history of a text with a claim.
fn draw_claimed(
    alloc: Global,
    text: &PendingText,
    claimed: &Claimed,
    options: DrawOptions,
) -> Outcome
    requires lines { HaveValueLines text.now.version text.now.initial × HasHistoryText text.now.events }
    ensures found { AnswersOrNoMemory (DrawsClaim options) (claim_on (history_in text.now) claimed.now)
        (answer_of result) }
    ensures places { NamesPlaces result }
{
    let whole = history_in(alloc, text)?;
    recall_complete(&whole);
    let history = drawn_part(alloc, whole, options.condition.is_weakly_empty)?;
    draw_claim(alloc, &history, claimed, options)
}

/// Draws the history of the operations of a `YES`, with its lines as the claim.
fn draw_yes(alloc: Global, lines: Lines, options: DrawOptions) -> Outcome
    ensures found { AnswersOrNoMemory (DrawsYes options) lines (answer_of result) }
    ensures places { NamesPlaces result }
{
    if options.condition.is_local {
        return Err(Fault::Orders);
    }
    if lines.len() > MOST_DRAWN {
        return Err(Fault::Size);
    }
    let whole = match history_of_operations(alloc, lines.as_slice())? {
        Some(whole) => whole,
        None => return Ok(Report::Verified(false)),
    };
    recall_complete(&whole);
    let history = drawn_part(alloc, whole, options.condition.is_weakly_empty)?;
    draw_claim(alloc, &history, &Claimed::Yes(lines), options)
}

/// Draws the history or the pending text with its verdict.
fn draw_alone(alloc: Global, text: PendingText, options: DrawOptions) -> Outcome
    requires lines { HaveValueLines text.version text.initial × HasHistoryText text.events }
    ensures found { AnswersOrNoMemory (λ t. DrawsAlone options t t.open_calls) text (answer_of result) }
    ensures places { NamesPlaces result }
{
    match text.open_calls {
        Some(_) => draw_pending(alloc, text, options),
        None => {
            let whole = history_in(alloc, &text)?;
            recall_complete(&whole);
            draw_whole(alloc, whole, None, options)
        }
    }
}

/// Draws the completion of a pending text with its verdict.
fn draw_pending(alloc: Global, text: PendingText, options: DrawOptions) -> Outcome
    requires lines { HaveValueLines text.version text.initial × HasHistoryText text.events }
    ensures found { AnswersOrNoMemory (DrawsPending options) text (answer_of result) }
    ensures places { NamesPlaces result }
{
    let added_from = next_ticket(text.events.as_slice());
    let (_version, initial, events) = completed(alloc, text)?;
    let whole = history_of_completion(alloc, initial.into_vec(), events.as_slice())?;
    draw_whole(alloc, whole, Some(added_from), options)
}

/// Returns the history, without its empty dequeues if these promise nothing.
fn drawn_part(alloc: Global, whole: History, is_weakly_empty: bool) -> Result<History, AllocError>
    ensures whole { is_weakly_empty ≡ false → IfOk result (λ part. part ≡ whole) }
    ensures selected { is_weakly_empty ≡ true
        → IfOk result (λ part. contents_of part ≡ without_empties (contents_of whole)) }
    ensures events { is_weakly_empty ≡ true → IfOk result (λ part. ArePartOf whole.events part.events) }
    ensures complete { IfOk result (λ part. IsSound part) }
{
    if is_weakly_empty {
        without_empties(alloc, &whole)
    } else {
        let _initial = whole.initial();
        Ok(whole)
    }
}

/// Draws the part of a history that is judged, with its verdict.
fn draw_whole(
    alloc: Global,
    whole: History,
    added_from: Option<u64>,
    options: DrawOptions,
) -> Outcome
    ensures found { (version : Version) → AnswersOrNoMemory
        (λ text. DrawsPart options.condition.is_weakly_empty text (DrawsDecided options added_from))
        (said_in version whole) (answer_of result) }
    ensures places { NamesPlaces result }
{
    let history = drawn_part(alloc, whole, options.condition.is_weakly_empty)?;
    draw_decided(alloc, &history, added_from, options)
}

/// Returns the condition with empty dequeues that promise what they say.
fn strict(condition: Condition) -> Condition
    ensures { result ≡ strict condition }
{
    Condition {
        is_local: condition.is_local,
        is_weakly_empty: false,
    }
}

/// Refuses a claim with a linearization for each producer, which one picture can't show.
fn check_one_order(claimed: &Claimed, is_local: bool) -> Result<(), Fault>
    ensures one { OnOk result (IsOneOrder is_local claimed.now) }
    ensures several { IfErr result (λ fault. (answer_of_fault fault ≡ refused_orders)
        × (¬ (IsOneOrder is_local claimed.now))) }
{
    match claimed {
        Claimed::Yes(_) if is_local => Err(Fault::Orders),
        _ => Ok(()),
    }
}

/// Has the type's invariant at hand: a history is complete, and has few enough initial values.
fn recall_complete(history: &History)
    ensures sound { IsSound history.now }
    ensures few { length history.now.initial ≤ MAX_INITIAL }
{
    let _ = history.initial();
}

/// Returns the operations to be drawn, if these and the lines of the claim are few.
fn drawn_if_few(
    alloc: Global,
    history: &History,
    claimed: &Claimed,
    options: DrawOptions,
) -> Result<Vec<Operation>, Fault>
    ensures drawn { IfOk result (λ drawn. drawn.items ≡ drawn_operations history.now claimed.now options.around) }
    ensures few { IfOk result (λ drawn. length drawn.items ≤ MOST_DRAWN) }
    ensures few_lines { IfOk result (λ drawn. count_of_lines claimed.now ≤ MOST_DRAWN) }
    ensures large { (version : Version) (added : Option ℕ) → IfErr result (λ fault.
        AnswersOrNoMemory (DrawsSound options added) (claim_on (said_in version history.now) claimed.now)
        (answer_of_fault fault)) }
{
    if count_of_lines(claimed) > MOST_DRAWN {
        return Err(Fault::Size);
    }
    let drawn = drawn_operations(alloc, history, claimed, options.around)?;
    if drawn.len() > MOST_DRAWN {
        return Err(Fault::Size);
    }
    Ok(drawn)
}

/// Draws a history with a claim, if few operations are drawn and the claim is evidence.
fn draw_claim(alloc: Global, history: &History, claimed: &Claimed, options: DrawOptions) -> Outcome
    requires complete { IsSound history.now }
    ensures found { (version : Version)
        → AnswersOrNoMemory (DrawsSound options None) (claim_on (said_in version history.now) claimed.now)
        (answer_of result) }
    ensures places { NamesPlaces result }
{
    let drawn = drawn_if_few(alloc, history, claimed, options)?;
    if !verify_under(alloc, history, claimed, strict(options.condition))? {
        return Ok(Report::Verified(false));
    }
    draw_evidence(alloc, history, claimed, drawn, None, options)
}

/// Draws a history with its verdict, if few operations are drawn.
fn draw_decided(
    alloc: Global,
    history: &History,
    added_from: Option<u64>,
    options: DrawOptions,
) -> Outcome
    ensures found { (version : Version)
        → AnswersOrNoMemory (DrawsDecided options added_from) (said_in version history.now) (answer_of result) }
    ensures places { NamesPlaces result }
{
    recall_complete(history);
    let claimed = decided_claim(alloc, history, strict(options.condition))?;
    let drawn = drawn_if_few(alloc, history, &claimed, options)?;
    draw_evidence(alloc, history, &claimed, drawn, added_from, options)
}

/// Returns the claim of the verdict on a history.
fn decided_claim(
    alloc: Global,
    history: &History,
    condition: Condition,
) -> Result<Claimed, AllocError>
    ensures { IfOk result (IsVerdictClaim condition history.now) }
{
    let verdict = decide_under(&OnePiece, alloc, history, condition)?;
    claim(alloc, history, &verdict)
}

/// Draws these operations of a history, with a claim that is evidence in it.
fn draw_evidence(
    alloc: Global,
    history: &History,
    claimed: &Claimed,
    drawn: Vec<Operation>,
    added_from: Option<u64>,
    options: DrawOptions,
) -> Outcome
    requires complete { IsSound history.now }
    requires few_lines { count_of_lines claimed.now ≤ MOST_DRAWN }
    requires drawn { drawn.items ≡ drawn_operations history.now claimed.now options.around }
    requires few { length drawn.items ≤ MOST_DRAWN }
    requires evidence { IsTrueUnder (strict options.condition) history.now claimed.now }
    ensures found { (version : Version)
        → AnswersOrNoMemory (DrawsSound options added_from) (claim_on (said_in version history.now) claimed.now)
        (answer_of result) }
    ensures places { NamesPlaces result }
{
    check_one_order(claimed, options.condition.is_local)?;
    let scene = scene_of(alloc, history, claimed, drawn, added_from)?;
    let picture = picture_in(alloc, history, &scene, options.form)?;
    Ok(Report::Drawn(picture))
}

/// Draws a scene of a history in this form.
fn picture_in(
    alloc: Global,
    history: &History,
    scene: &Scene<'_>,
    form: PictureForm,
) -> Result<Vec<u8>, AllocError>
    requires { count_of_lines scene.now.claimed.now ≤ MOST_DRAWN }
    ensures { IfOk result (λ picture. picture.items ≡ picture_in form history.now (scene_on scene.now)) }
{
    match form {
        PictureForm::Svg => svg_picture(alloc, scene),
        PictureForm::Html => html_picture(alloc, history, scene),
        PictureForm::Terminal => terminal_picture(alloc, scene),
    }
}
