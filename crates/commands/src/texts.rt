//! The commands over a text in memory, in the caller's thread: nothing is read, printed or started.
ghost use Rattle.std.specs.Prelude.{◌≡◌, IfOk};
ghost use Rattle.history_merge.specs.Initial.{HistoryView};
ghost use Rattle.std.specs.Prelude.{false};
ghost use Rattle.command_words.specs.Commands.{check, complete, draw, shrink, stats, verify};
ghost use Rattle.commands.specs.Answers.{answer_text};
ghost use Rattle.commands.specs.Evidence.{input_of};
ghost use Rattle.commands.specs.Judging.{JudgesHistory, IsGathered, AnswersOrNoMemory};
ghost use Rattle.commands.specs.Outcomes.{answer_of, NamesPlaces};
ghost use Rattle.commands.specs.Running.{AnswersOf};

use crate::complete::complete;
use crate::draw::draw;
use crate::histories::{stats, verify};
use crate::input::given_history;
use crate::judging::decide_under;
use crate::outcome::{Outcome, Report};
use crate::print::write_outcome;
use crate::shrink::shrink;
use command_words::{Condition, DrawOptions};
use history_merge::HistoryBuilder;
use history_text::{MemorySource, Watched};
use parallel_finders::OnePiece;
use std::alloc::{AllocError, Global};

/// Answers `check` for a text. Takes the time and memory of the command in one thread.
pub fn check_text(alloc: Global, text: &[u8], condition: Condition) -> Outcome
    ensures found { AnswersOf (check condition) (input_of text.now) (answer_of result) }
    ensures places { NamesPlaces result }
{
    let (_version, history) = given_history(alloc, MemorySource::new(text))?;
    let verdict = decide_under(&OnePiece, alloc, &history, condition)?;
    Ok(Report::Judged(history, verdict))
}

/// Answers `shrink` for a text.
pub fn shrink_text(alloc: Global, text: &[u8], condition: Condition) -> Outcome
    ensures found { AnswersOf (shrink condition) (input_of text.now) (answer_of result) }
    ensures places { NamesPlaces result }
{
    shrink(alloc, MemorySource::new(text), condition)
}

/// Answers `verify` for a text.
pub fn verify_text(alloc: Global, text: &[u8], condition: Condition) -> Outcome
    ensures found { AnswersOf (verify condition) (input_of text.now) (answer_of result) }
    ensures places { NamesPlaces result }
{
    verify(alloc, MemorySource::new(text), condition)
}

/// Answers `draw` for a text.
pub fn draw_text(alloc: Global, text: &[u8], options: DrawOptions) -> Outcome
    ensures found { AnswersOf (draw options) (input_of text.now) (answer_of result) }
    ensures places { NamesPlaces result }
{
    draw(alloc, MemorySource::new(text), options)
}

/// Answers `complete` for a text. With `takes_cut` the text may be cut off.
pub fn complete_text(alloc: Global, text: &[u8], takes_cut: bool) -> Outcome
    ensures found { AnswersOf (complete takes_cut) (input_of text.now) (answer_of result) }
    ensures places { NamesPlaces result }
{
    complete(alloc, MemorySource::new(text), takes_cut)
}

/// Answers `stats` for a text.
pub fn stats_text(alloc: Global, text: &[u8]) -> Outcome
    ensures found { AnswersOf (stats false) (input_of text.now) (answer_of result) }
    ensures places { NamesPlaces result }
{
    stats(alloc, MemorySource::new(text), false)
}

/// Answers `check` for the history of a builder.
pub fn judge_gathered(alloc: Global, builder: HistoryBuilder, condition: Condition) -> Outcome
    ensures found { (history : HistoryView) → IsGathered history builder
        → AnswersOrNoMemory (JudgesHistory condition) history (answer_of result) }
    ensures places { NamesPlaces result }
{
    let history = builder.finish()?;
    let verdict = decide_under(&OnePiece, alloc, &history, condition)?;
    Ok(Report::Judged(history, verdict))
}

/// Returns the text that a command prints of an outcome. `AllocError` comes only if a growth was refused.
pub fn text_of_outcome(alloc: Global, outcome: &Outcome) -> Result<Vec<u8>, AllocError>
    requires { NamesPlaces outcome.now }
    ensures { IfOk result (λ text. text.items ≡ answer_text (answer_of outcome.now)) }
{
    let mut writer = Watched::new(Vec::new(alloc));
    match write_outcome(outcome, &mut writer) {
        Ok(()) => Ok(writer.into_inner()),
        Err(_) => Err(AllocError),
    }
}
