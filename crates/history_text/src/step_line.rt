//! The lines of schedules, parsed by their forms: the setting and the steps.
ghost use Rattle.std.specs.Prelude.{◌≡◌, ◌≤◌, slice_index};
ghost use Rattle.std.proofs.Common.{lit≤};
ghost use Rattle.history_text.specs.Inner.Taking.{setting_format};
ghost use Rattle.history_text.specs.Schedules as wanted;
ghost use Rattle.history_text.specs.Schedules.{step_format, HasStepLine};

use crate::event_line::{THREAD, VALUE};
use crate::item::Item;
use crate::schedule::MOST_DRAINED;
use event_records::{MAX_STEPS, MAX_THREAD};
use recorder_core::{Answer, MAX_RING, MAX_THREADS, MIN_RING, Step};
use text_lines::{Field, NumberFields, TextFault};

/// The forms of step lines, each with its step, with 0 as the thread and as any other number.
const STEP_FORMS: [(Step, &[Field]); 11] = [
    (Step::AskEnq(0), &[Field::Word(b"ask-enq"), THREAD]),
    (Step::AskDeq(0), &[Field::Word(b"ask-deq"), THREAD]),
    (Step::Push(0), &[Field::Word(b"push"), THREAD]),
    (Step::Effect(0), &[Field::Word(b"effect"), THREAD]),
    (Step::Ret(0), &[Field::Word(b"ret"), THREAD]),
    (Step::Close(0), &[Field::Word(b"close"), THREAD]),
    (
        Step::Drain(0, 0),
        &[
            Field::Word(b"drain"),
            THREAD,
            Field::Number {
                least: 0,
                greatest: MOST_DRAINED as u64,
            },
        ],
    ),
    (
        Step::Say(0, Answer::Taken),
        &[Field::Word(b"say"), THREAD, Field::Word(b"taken")],
    ),
    (
        Step::Say(0, Answer::Not),
        &[Field::Word(b"say"), THREAD, Field::Word(b"not")],
    ),
    (
        Step::Say(0, Answer::Empty),
        &[Field::Word(b"say"), THREAD, Field::Word(b"empty")],
    ),
    (
        Step::Say(0, Answer::Got(0)),
        &[Field::Word(b"say"), THREAD, Field::Word(b"got"), VALUE],
    ),
];

/// Replaces the value of an answer, if it has one.
fn answer_with(answer: Answer, value: u64) -> Answer
    ensures { result ≡ wanted.answer_with answer value }
{
    match answer {
        Answer::Got(_) => Answer::Got(value),
        Answer::Taken | Answer::Not | Answer::Empty => answer,
    }
}

/// Makes the step of a line from its form and its numbers.
fn step_of(step: Step, numbers: &NumberFields) -> Step
    requires thread { slice_index numbers.now 0 ≤ MAX_THREAD }
    requires has_line { HasStepLine (wanted.step_of step numbers.now) }
    ensures { result ≡ wanted.step_of step numbers.now }
{
    let thread = numbers.at(0) as u8;
    match step {
        Step::AskEnq(_) => Step::AskEnq(thread),
        Step::AskDeq(_) => Step::AskDeq(thread),
        Step::Push(_) => Step::Push(thread),
        Step::Effect(_) => Step::Effect(thread),
        Step::Say(_, answer) => Step::Say(thread, answer_with(answer, numbers.at(1))),
        Step::Ret(_) => Step::Ret(thread),
        Step::Drain(_, _) => Step::Drain(thread, numbers.at(1) as u32),
        Step::Close(_) => Step::Close(thread),
    }
}

impl Item for Step {
    ghost format = { step_format };

    ghost few = { lit≤ tt };

    fn limits() -> (usize, bool) {
        (MAX_STEPS, true)
    }

    fn from_line(line: u64, bytes: &[u8]) -> Result<Step, TextFault> {
        let (step, numbers) = text_lines::parse_line(line, &STEP_FORMS, bytes)?;
        Ok(step_of(step, &numbers))
    }
}

/// The form of the second line, which has the setting.
const SETTING_FORMS: [((), &[Field]); 1] = [(
    (),
    &[
        Field::Word(b"threads"),
        Field::Number {
            least: 1,
            greatest: MAX_THREADS as u64,
        },
        Field::Word(b"ring"),
        Field::Number {
            least: MIN_RING as u64,
            greatest: MAX_RING as u64,
        },
    ],
)];

impl Item for (usize, usize) {
    ghost format = { setting_format };

    ghost few = { lit≤ tt };

    fn limits() -> (usize, bool) {
        (1, false)
    }

    fn from_line(line: u64, bytes: &[u8]) -> Result<(usize, usize), TextFault> {
        let (_, numbers) = text_lines::parse_line(line, &SETTING_FORMS, bytes)?;
        Ok((numbers.at(0) as usize, numbers.at(1) as usize))
    }
}
