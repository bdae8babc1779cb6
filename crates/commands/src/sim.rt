//! `sim`: a schedule of the recorder's steps, and the verdict on the history that it collects.
ghost use Rattle.std.specs.Prelude.{IfSome};
ghost use Rattle.history_text.specs.Schedules.{IsSetting};
ghost use Rattle.commands.specs.Inputs.{IsScheduleOf, IsFaultOfScheduleInput};
ghost use Rattle.commands.specs.Judging.{Simulates, AnswersFor, AnswersOrNoMemory};
ghost use Rattle.commands.specs.Outcomes.{answer_of, NamesPlaces};
ghost use Rattle.text_lines.specs.Input.{OfInput};

use crate::input::schedule_of;
use crate::outcome::{Outcome, Report};
use history_merge::merged_from;
use history_text::{Schedule, TextSource};
use simulation::{Ending, Simulation, simulate};
use std::alloc::Global;
use verdicts::decide;

/// Answers `sim` for the text of a reader.
pub(crate) fn sim<S: TextSource + Drop>(alloc: Global, reader: S) -> Outcome
    ensures found { OfInput (S.ahead reader)
        (λ input. AnswersFor IsScheduleOf IsFaultOfScheduleInput Simulates input (answer_of result)) }
    ensures places { NamesPlaces result }
{
    let schedule = schedule_of(alloc, reader)?;
    play(alloc, &schedule)
}

/// Plays the steps of a schedule.
fn play(alloc: Global, schedule: &Schedule) -> Outcome
    requires { IsSetting schedule.now.threads schedule.now.ring }
    ensures found { AnswersOrNoMemory Simulates schedule.now (answer_of result) }
    ensures places { NamesPlaces result }
{
    let Simulation { rejections, ending } = simulate(
        alloc,
        schedule.threads,
        schedule.ring,
        schedule.steps.as_slice(),
    )?;
    let lists = match ending {
        Ending::Open => return Ok(Report::LeftOpen(rejections)),
        Ending::Done(lists) => lists,
    };
    let history = merged_from(alloc, &[], &lists)?;
    let verdict = decide(alloc, &history)?;
    Ok(Report::Played(rejections, history, verdict))
}
