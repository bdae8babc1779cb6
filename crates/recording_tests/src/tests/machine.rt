ghost use Rattle.std.specs.Prelude.{◌≡◌, length};

use event_records::{Event, LEAST_INITIAL_NAME, MAX_THREAD_OPERATIONS, What};
use recorder_core::{Answer, Done, Machine, Step, StepRefused};
use std::alloc::Global;
use std::process::Abort;
use std::test::Fail;

/// A step, and its expected answer.
type Case = (Step, Result<Done, StepRefused>);

/// Takes the steps of a table and compares each answer.
fn take_all(rt: &impl Abort, machine: &mut Machine, cases: &[Case])
    ensures { length machine.new.threads ≡ length machine.old.threads }
{
    for (step, expected) in cases {
        let answer = machine.step(*step);
        assert!(rt; answer == *expected, "{step:?}: {answer:?}");
    }
}

/// Steps of a thread that the machine doesn't have.
const UNKNOWN: [Case; 8] = [
    (Step::AskEnq(2), Err(StepRefused::NoThread)),
    (Step::AskDeq(2), Err(StepRefused::NoThread)),
    (Step::Drain(2, 1), Err(StepRefused::NoThread)),
    (Step::Push(2), Err(StepRefused::NoThread)),
    (Step::Effect(2), Err(StepRefused::NoThread)),
    (Step::Say(2, Answer::Taken), Err(StepRefused::NoThread)),
    (Step::Ret(2), Err(StepRefused::NoThread)),
    (Step::Close(2), Err(StepRefused::NoThread)),
];

/// The close of thread 1 and steps after it.
const CLOSED: [Case; 9] = [
    (Step::Close(1), Ok(Done::Closed)),
    (Step::AskEnq(1), Err(StepRefused::Closed)),
    (Step::AskDeq(1), Err(StepRefused::Closed)),
    (Step::Push(1), Err(StepRefused::Closed)),
    (Step::Effect(1), Err(StepRefused::Closed)),
    (Step::Say(1, Answer::Empty), Err(StepRefused::Closed)),
    (Step::Ret(1), Err(StepRefused::Closed)),
    (Step::Close(1), Err(StepRefused::Closed)),
    (Step::Drain(1, 3), Ok(Done::Drained(0))),
];

/// An enqueue and a dequeue of thread 0, with steps that are refused because they come too early or too late. The
/// machine begins with one value.
const OPEN: [Case; 28] = [
    (Step::Push(0), Err(StepRefused::NothingHeld)),
    (Step::Effect(0), Err(StepRefused::NotPending)),
    (Step::Say(0, Answer::Taken), Err(StepRefused::NotPending)),
    (Step::Ret(0), Err(StepRefused::NotPending)),
    (Step::AskEnq(0), Ok(Done::Ticket(0))),
    (Step::AskEnq(0), Err(StepRefused::Held)),
    (Step::AskDeq(0), Err(StepRefused::Held)),
    (Step::Ret(0), Err(StepRefused::Held)),
    (Step::Close(0), Err(StepRefused::Held)),
    (Step::Push(0), Ok(Done::Pushed)),
    (Step::AskEnq(0), Err(StepRefused::Pending)),
    (Step::AskDeq(0), Err(StepRefused::Pending)),
    (Step::Close(0), Err(StepRefused::Pending)),
    (Step::Ret(0), Err(StepRefused::NoAnswer)),
    (Step::Say(0, Answer::Got(1)), Err(StepRefused::WrongAnswer)),
    (Step::Say(0, Answer::Empty), Err(StepRefused::WrongAnswer)),
    (Step::Effect(0), Ok(Done::Answered(Answer::Taken))),
    (Step::Effect(0), Err(StepRefused::AnswerTaken)),
    (Step::Say(0, Answer::Not), Err(StepRefused::AnswerTaken)),
    (Step::Ret(0), Ok(Done::Ticket(1))),
    (Step::Push(0), Ok(Done::Pushed)),
    (Step::AskDeq(0), Ok(Done::Ticket(2))),
    (Step::Push(0), Err(StepRefused::RingFull)),
    (Step::Say(0, Answer::Taken), Err(StepRefused::WrongAnswer)),
    (Step::Say(0, Answer::Not), Err(StepRefused::WrongAnswer)),
    (Step::Drain(0, 1), Ok(Done::Drained(1))),
    (Step::Push(0), Ok(Done::Pushed)),
    (
        Step::Effect(0),
        Ok(Done::Answered(Answer::Got(LEAST_INITIAL_NAME))),
    ),
];

/// The end of that dequeue, a dequeue of the enqueued value, an empty dequeue, and a dequeue that is given its
/// answer.
const ENDED: [Case; 24] = [
    (Step::Ret(0), Ok(Done::Ticket(3))),
    (Step::Push(0), Err(StepRefused::RingFull)),
    (Step::Drain(0, 3), Ok(Done::Drained(2))),
    (Step::Push(0), Ok(Done::Pushed)),
    (Step::AskDeq(0), Ok(Done::Ticket(4))),
    (Step::Push(0), Ok(Done::Pushed)),
    (Step::Effect(0), Ok(Done::Answered(Answer::Got(0)))),
    (Step::Ret(0), Ok(Done::Ticket(5))),
    (Step::Drain(0, 2), Ok(Done::Drained(2))),
    (Step::Push(0), Ok(Done::Pushed)),
    (Step::AskDeq(0), Ok(Done::Ticket(6))),
    (Step::Push(0), Ok(Done::Pushed)),
    (Step::Effect(0), Ok(Done::Answered(Answer::Empty))),
    (Step::Ret(0), Ok(Done::Ticket(7))),
    (Step::Drain(0, 2), Ok(Done::Drained(2))),
    (Step::Push(0), Ok(Done::Pushed)),
    (Step::AskDeq(0), Ok(Done::Ticket(8))),
    (Step::Push(0), Ok(Done::Pushed)),
    (
        Step::Say(0, Answer::Got(5)),
        Ok(Done::Answered(Answer::Got(5))),
    ),
    (Step::Ret(0), Ok(Done::Ticket(9))),
    (Step::Drain(0, 2), Ok(Done::Drained(2))),
    (Step::Push(0), Ok(Done::Pushed)),
    (Step::Drain(0, 2), Ok(Done::Drained(1))),
    (Step::Close(0), Ok(Done::Closed)),
];

/// The events of thread 0 after these steps.
const COLLECTED: [What; 10] = [
    What::CallEnq(0),
    What::RetEnq,
    What::CallDeq,
    What::RetDeq(LEAST_INITIAL_NAME),
    What::CallDeq,
    What::RetDeq(0),
    What::CallDeq,
    What::RetEmpty,
    What::CallDeq,
    What::RetDeq(5),
];

/// Returns whether these are the events to be collected of thread 0.
fn are_collected(events: &[Event]) -> bool {
    for (n, event) in events.iter().enumerate() {
        if event.ticket != n as u64 || event.thread != 0 || COLLECTED.get(n) != Some(&event.what) {
            return false;
        }
    }
    events.len() == COLLECTED.len()
}

#[test]
fn each_answer_to_each_step(rt: HostRuntime) -> Result<(), Fail> {
    let initial = vec![in rt.alloc(); LEAST_INITIAL_NAME]?;
    let mut machine = Machine::with_initial(rt.alloc(), 2, 2, initial)?;
    take_all(&rt, &mut machine, &UNKNOWN);
    take_all(&rt, &mut machine, &CLOSED);
    take_all(&rt, &mut machine, &OPEN);
    assert!(rt; !machine.done());
    take_all(&rt, &mut machine, &ENDED);
    assert!(rt; machine.done() && are_collected(machine.collected(0)));
    Ok(())
}

/// Runs an empty dequeue of this thread, from its call to the drain of its events.
fn operate(machine: &mut Machine, thread: u8) -> Result<(), StepRefused> {
    let steps = [
        Step::AskDeq(thread),
        Step::Push(thread),
        Step::Say(thread, Answer::Empty),
        Step::Ret(thread),
        Step::Push(thread),
        Step::Drain(thread, 2),
    ];
    for step in steps {
        machine.step(step)?;
    }
    Ok(())
}

fn operate_up_to_limit(machine: &mut Machine, thread: u8) -> Result<(), StepRefused> {
    for _ in 0..MAX_THREAD_OPERATIONS {
        operate(machine, thread)?;
    }
    Ok(())
}

/// Returns whether the limit refuses another enqueue and another dequeue of a thread.
fn is_limited(machine: &mut Machine, thread: u8) -> bool {
    let limit = Err(StepRefused::Limit);
    machine.step(Step::AskEnq(thread)) == limit && machine.step(Step::AskDeq(thread)) == limit
}

/// Returns whether a thread is limited that made all its operations, and one that made none after ten threads made
/// all theirs.
fn are_limited(alloc: Global) -> Result<(bool, bool), Fail> {
    let mut machine = Machine::new(alloc, 11, 2)?;
    operate_up_to_limit(&mut machine, 0)?;
    let is_first_limited = is_limited(&mut machine, 0);
    for thread in 1..10 {
        operate_up_to_limit(&mut machine, thread)?;
    }
    Ok((is_first_limited, is_limited(&mut machine, 10)))
}

#[test]
fn a_thread_and_all_threads_ask_no_more_than_their_limits(rt: HostRuntime) -> Result<(), Fail> {
    assert!(rt; are_limited(rt.alloc())? == (true, true));
    Ok(())
}
