use event_records::{Event, What};
use recorder_core::{Step, StepRefused};
use simulation::{Ending, Rejection, simulate};
use std::alloc::AllocError;

/// One operation, after a push of nothing.
const CLOSED: [Step; 8] = [
    Step::Push(0),
    Step::AskEnq(0),
    Step::Push(0),
    Step::Effect(0),
    Step::Ret(0),
    Step::Push(0),
    Step::Drain(0, 2),
    Step::Close(0),
];

/// The refused step.
const REJECTED: [Rejection; 1] = [Rejection {
    step: 1,
    reason: StepRefused::NothingHeld,
}];

/// The events collected after these steps.
const COLLECTED: [Event; 2] = [
    Event {
        ticket: 0,
        thread: 0,
        what: What::CallEnq(0),
    },
    Event {
        ticket: 1,
        thread: 0,
        what: What::RetEnq,
    },
];

fn is_collected(ending: &Ending) -> bool {
    match ending {
        Ending::Open => false,
        Ending::Done(lists) => match lists.as_slice() {
            [list] => list.as_slice() == COLLECTED.as_slice(),
            _ => false,
        },
    }
}

#[test]
fn what_is_collected_of_closed_threads_is_given(rt: HostRuntime) -> Result<(), AllocError> {
    let played = simulate(rt.alloc(), 1, 2, &CLOSED)?;
    assert!(rt; played.rejections.as_slice() == REJECTED.as_slice());
    assert!(rt; is_collected(&played.ending));
    Ok(())
}
