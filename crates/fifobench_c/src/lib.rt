//! The commands as functions for callers in C, C++ and Rust: a static library.
//!
//! Each function judges a text or events in the caller's memory, and writes its answer into the caller's buffer. It
//! starts no thread, reads and writes no file, and keeps nothing after it returns. The header is
//! `library/fifobench.h`.
#![tactic(auto)]

mod filling;
mod laws;
mod recorded;
#[cfg(test)]
mod tests;

ghost use Rattle.std.specs.Prelude.{◌≡◌, ◌<◌, ◌≤◌, ◌⊎◌, false, List, ℕ, length};
ghost use Rattle.event_records.specs.declared.event.Event.{Event};
ghost use Rattle.event_records.specs.declared.limits.TheConstants.{MAX_EVENTS};
ghost use Rattle.command_words.specs.Commands.{check, complete, draw, shrink, stats, verify};
ghost use Rattle.command_words.specs.Options.{drawing_as, linearizability};
ghost use Rattle.command_words.specs.declared.options.PictureForm.TheVariants.{Svg, Terminal};
ghost use Rattle.commands.specs.Answers.{refused_limit, memory_fault};
ghost use Rattle.commands.specs.Evidence.{input_of};
ghost use Rattle.commands.specs.Judging.{AnswersOrNoMemory, JudgesHistory, from_none};
ghost use Rattle.commands.specs.Running.{AnswersOf};
ghost use Rattle.fifobench_c.specs.Conditions.{condition_of};
ghost use Rattle.fifobench_c.specs.Filling.{Tells, TellsAnswer, TellsOneOf};
ghost use Rattle.fifobench_c.specs.Recorded.{AreEvents, IsFirstUnknown, bad_what_line};

use crate::filling::{tell, tell_bad_what};
use crate::recorded::gathered;
use command_words::{Condition, DrawOptions, PictureForm};
use commands::{
    Fault, check_text, complete_text, draw_text, judge_gathered, shrink_text, stats_text,
    verify_text,
};
use event_records::MAX_EVENTS;
pub use laws::events_and_their_text_agree;
pub use recorded::{CALL_DEQ, CALL_ENQ, RET_DEQ, RET_EMPTY, RET_ENQ, RET_NOT, RecordedEvent};
use std::alloc::Global;

/// The number of the interface that the header describes.
const INTERFACE: u32 = 1;

/// The bits of linearizability itself.
const LINEARIZABILITY: u32 = 0;

/// Writes the answer of `check` about the text.
///
/// Takes the time and memory of the command in one thread, and memory for the answer.
#[unsafe(no_mangle)]
pub extern "C" fn fifobench_check(
    alloc: Global,
    text: &[u8],
    answer: &mut [u8],
    needed: &mut usize,
) -> u8
    ensures { TellsOneOf (AnswersOrNoMemory (AnswersOf (check linearizability)) (input_of text.now))
        answer.old answer.new needed.new result }
{
    fifobench_check_under(alloc, text, LINEARIZABILITY, answer, needed)
}

/// Writes the answer of `shrink` about the text.
#[unsafe(no_mangle)]
pub extern "C" fn fifobench_shrink(
    alloc: Global,
    text: &[u8],
    answer: &mut [u8],
    needed: &mut usize,
) -> u8
    ensures { TellsOneOf (AnswersOrNoMemory (AnswersOf (shrink linearizability)) (input_of text.now))
        answer.old answer.new needed.new result }
{
    fifobench_shrink_under(alloc, text, LINEARIZABILITY, answer, needed)
}

/// Writes the answer of `verify` about the text.
#[unsafe(no_mangle)]
pub extern "C" fn fifobench_verify(
    alloc: Global,
    text: &[u8],
    answer: &mut [u8],
    needed: &mut usize,
) -> u8
    ensures { TellsOneOf (AnswersOrNoMemory (AnswersOf (verify linearizability)) (input_of text.now))
        answer.old answer.new needed.new result }
{
    fifobench_verify_under(alloc, text, LINEARIZABILITY, answer, needed)
}

/// Writes the answer of `check` about the text under a condition: linearizability, or a weaker condition by its bits.
///
/// Bit 0 stands for `--local`, and bit 1 for `--weak-empty`. The other bits are ignored.
#[unsafe(no_mangle)]
pub extern "C" fn fifobench_check_under(
    alloc: Global,
    text: &[u8],
    condition: u32,
    answer: &mut [u8],
    needed: &mut usize,
) -> u8
    ensures { TellsOneOf (AnswersOrNoMemory (AnswersOf (check (condition_of condition))) (input_of text.now))
        answer.old answer.new needed.new result }
{
    tell(
        alloc,
        &check_text(alloc, text, condition_of(condition)),
        answer,
        needed,
    )
}

/// Writes the answer of `shrink` about the text under a condition, by its bits.
#[unsafe(no_mangle)]
pub extern "C" fn fifobench_shrink_under(
    alloc: Global,
    text: &[u8],
    condition: u32,
    shrunk: &mut [u8],
    needed: &mut usize,
) -> u8
    ensures { TellsOneOf (AnswersOrNoMemory (AnswersOf (shrink (condition_of condition))) (input_of text.now))
        shrunk.old shrunk.new needed.new result }
{
    tell(
        alloc,
        &shrink_text(alloc, text, condition_of(condition)),
        shrunk,
        needed,
    )
}

/// Writes the answer of `verify` about a history and its verdict under a condition, by its bits.
#[unsafe(no_mangle)]
pub extern "C" fn fifobench_verify_under(
    alloc: Global,
    claimed: &[u8],
    condition: u32,
    answer: &mut [u8],
    needed: &mut usize,
) -> u8
    ensures { TellsOneOf (AnswersOrNoMemory (AnswersOf (verify (condition_of condition))) (input_of claimed.now))
        answer.old answer.new needed.new result }
{
    tell(
        alloc,
        &verify_text(alloc, claimed, condition_of(condition)),
        answer,
        needed,
    )
}

/// Returns the condition of these bits.
fn condition_of(bits: u32) -> Condition
    ensures { result ≡ condition_of bits }
{
    Condition {
        is_local: bits % 2 == 1,
        is_weakly_empty: bits / 2 % 2 == 1,
    }
}

/// Writes the answer of `draw` about the text, an SVG document.
#[unsafe(no_mangle)]
pub extern "C" fn fifobench_draw(
    alloc: Global,
    text: &[u8],
    answer: &mut [u8],
    needed: &mut usize,
) -> u8
    ensures { TellsOneOf (AnswersOrNoMemory (AnswersOf (draw (drawing_as Svg))) (input_of text.now))
        answer.old answer.new needed.new result }
{
    let options = DrawOptions::new(PictureForm::Svg);
    tell(alloc, &draw_text(alloc, text, options), answer, needed)
}

/// Writes the answer of `draw --text` about the text, lines of characters.
#[unsafe(no_mangle)]
pub extern "C" fn fifobench_draw_text(
    alloc: Global,
    text: &[u8],
    answer: &mut [u8],
    needed: &mut usize,
) -> u8
    ensures { TellsOneOf (AnswersOrNoMemory (AnswersOf (draw (drawing_as Terminal))) (input_of text.now))
        answer.old answer.new needed.new result }
{
    let options = DrawOptions::new(PictureForm::Terminal);
    tell(alloc, &draw_text(alloc, text, options), answer, needed)
}

/// Writes the answer of `complete` about the text: the completion of a history with pending calls.
#[unsafe(no_mangle)]
pub extern "C" fn fifobench_complete(
    alloc: Global,
    text: &[u8],
    answer: &mut [u8],
    needed: &mut usize,
) -> u8
    ensures { TellsOneOf (AnswersOrNoMemory (AnswersOf (complete false)) (input_of text.now))
        answer.old answer.new needed.new result }
{
    tell(alloc, &complete_text(alloc, text, false), answer, needed)
}

/// Writes the answer of `stats` about the text.
#[unsafe(no_mangle)]
pub extern "C" fn fifobench_stats(
    alloc: Global,
    text: &[u8],
    answer: &mut [u8],
    needed: &mut usize,
) -> u8
    ensures { TellsOneOf (AnswersOrNoMemory (AnswersOf (stats false)) (input_of text.now))
        answer.old answer.new needed.new result }
{
    tell(alloc, &stats_text(alloc, text), answer, needed)
}

/// Writes the answer of `check` about the events of a queue that is empty at first.
///
/// It refuses more events than a history may have. After that it refuses an event that is none of the six kinds, the
/// first one, by its place from 0.
#[unsafe(no_mangle)]
pub extern "C" fn fifobench_check_events(
    alloc: Global,
    events: &[RecordedEvent],
    answer: &mut [u8],
    needed: &mut usize,
) -> u8
    // Events of known kinds are judged as `check` judges a history of a queue that is empty at first.
    ensures judged { (list : List Event) → AreEvents events.now list → length list ≤ MAX_EVENTS
        → TellsOneOf (AnswersOrNoMemory (JudgesHistory linearizability) (from_none list))
        answer.old answer.new needed.new result }
    ensures unknown { (place : ℕ) → length events.now ≤ MAX_EVENTS → IsFirstUnknown events.now place
        → Tells (bad_what_line place) 2 answer.old answer.new needed.new result
        ⊎ TellsAnswer memory_fault answer.old answer.new needed.new result }
    ensures many { MAX_EVENTS < length events.now
        → TellsAnswer refused_limit answer.old answer.new needed.new result
        ⊎ TellsAnswer memory_fault answer.old answer.new needed.new result }
{
    if events.len() > MAX_EVENTS {
        return tell(alloc, &Err(Fault::Limit), answer, needed);
    }
    match gathered(alloc, events) {
        Ok(builder) => tell(
            alloc,
            &judge_gathered(alloc, builder, Condition::linearizable()),
            answer,
            needed,
        ),
        Err(place) => tell_bad_what(alloc, place, answer, needed),
    }
}

/// Returns the number of this interface. It changes if callers of an earlier one have to be compiled again.
#[unsafe(no_mangle)]
pub extern "C" fn fifobench_interface() -> u32
    ensures { result ≡ 1 }
{
    INTERFACE
}
