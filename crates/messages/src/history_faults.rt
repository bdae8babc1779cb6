//! Messages about events that are no complete history.
use crate::complaints::Given;
use crate::input::{line_of, lines_before};
use crate::message::Blank::{Number, Shown, Words};
use crate::message::{Blank, Message};
use event_records::What;
use history_merge::{Clash, HistoryFault, Placed};
use std::alloc::{AllocError, Global};

/// Advice: how tickets come to rise.
const BY_TICKET: &str =
    "events stand by rising ticket: draw each ticket from one counter that all threads share";

/// Advice: how tickets that are clock readings come to rise.
pub(crate) const BY_CLOCK: &str =
    "clock readings become tickets by from-clocks (examples or share/fifobench); or draw tickets from one counter";

/// A ticket above this is more likely a clock reading than a recorder's count.
const RATHER_A_CLOCK: u64 = 100_000_000;

/// Returns the advice for tickets of this size.
fn order_hint(before: u64, later: u64) -> &'static str {
    if before == later || before > RATHER_A_CLOCK {
        BY_CLOCK
    } else {
        BY_TICKET
    }
}

/// Advice: how values come to be distinct.
const DISTINCT: &str =
    "each enqueue needs a value of its own: give the thread and a count in one number";

/// Advice: how calls come to have returns.
const OPEN_CALLS: &str =
    "a history has the return of each call: fifobench complete < FILE | fifobench check judges one with pending calls";

/// Returns the line number of the initial value at a place from 0.
fn initial_line(place: usize) -> u64 {
    (place as u64).saturating_add(3)
}

/// Returns the line number of the event at a place from 0.
fn event_line(given: &Given<'_>, place: usize) -> u64 {
    (place as u64)
        .saturating_add(1)
        .saturating_add(lines_before(given))
}

/// Builds the message for a fault of the event at a place. It shows the event's line if that is kept.
fn event_message<'a>(
    alloc: Global,
    given: &Given<'a>,
    place: usize,
    what: &'a str,
) -> Result<Message, AllocError> {
    let number = event_line(given, place);
    match line_of(given, number) {
        Some(line) => {
            let blanks = [Number(number), Words(what), Shown(line)];
            Message::of(alloc, "line {}: {}: '{}'", &blanks, "")
        }
        None => Message::of(alloc, "line {}: {}", &[Number(number), Words(what)], ""),
    }
}

/// Returns the line number of an event, as a blank's text.
fn line_blank(given: &Given<'_>, of: &Placed) -> Blank<'static> {
    Number(event_line(given, of.place))
}

/// Builds the message for a ticket that isn't above that of the event before.
fn order_message(
    alloc: Global,
    given: &Given<'_>,
    before: &Placed,
    later: &Placed,
) -> Result<Message, AllocError> {
    let blanks = [
        line_blank(given, later),
        Number(later.event.ticket),
        Number(before.event.ticket),
        line_blank(given, before),
    ];
    let sentence = "line {}: ticket {} isn't above ticket {} of line {}";
    let hint = order_hint(before.event.ticket, later.event.ticket);
    Message::of(alloc, sentence, &blanks, hint)
}

/// Builds the message for a call of a thread whose last call is pending.
fn calls_message(
    alloc: Global,
    given: &Given<'_>,
    pending: &Placed,
    later: &Placed,
) -> Result<Message, AllocError> {
    let blanks = [
        line_blank(given, later),
        Number(u64::from(later.event.thread)),
        Number(later.event.ticket),
        Number(pending.event.ticket),
        line_blank(given, pending),
    ];
    let sentence =
        "line {}: thread {} calls at ticket {}, and its call at ticket {} in line {} hasn't returned";
    Message::of(alloc, sentence, &blanks, "")
}

/// Builds the message for a return from another kind of call than the thread made.
fn return_message(
    alloc: Global,
    given: &Given<'_>,
    call: &Placed,
    later: &Placed,
) -> Result<Message, AllocError> {
    let (number, called) = (
        event_line(given, later.place),
        event_line(given, call.place),
    );
    if let (Some(line), Some(call_line)) = (line_of(given, number), line_of(given, called)) {
        let blanks = [
            Number(number),
            Shown(line),
            Number(called),
            Shown(call_line),
        ];
        let sentence =
            "line {}: '{}' returns from another kind of call than its thread made in line {}: '{}'";
        return Message::of(alloc, sentence, &blanks, "");
    }
    let blanks = [
        Number(number),
        Number(u64::from(later.event.thread)),
        Number(later.event.ticket),
        Number(call.event.ticket),
        Number(called),
    ];
    let sentence =
        "line {}: thread {} returns at ticket {} from another kind of call than it made at ticket {} in line {}";
    Message::of(alloc, sentence, &blanks, "")
}

/// Returns the value that a call enqueues; any value for another event.
fn value_of(call: &Placed) -> u64 {
    match call.event.what {
        What::CallEnq(value) => value,
        _ => 0,
    }
}

/// Builds the message for a value that was enqueued before.
fn values_message(
    alloc: Global,
    given: &Given<'_>,
    first: &Placed,
    later: &Placed,
) -> Result<Message, AllocError> {
    let blanks = [
        line_blank(given, later),
        Number(value_of(later)),
        Number(later.event.ticket),
        line_blank(given, first),
        Number(first.event.ticket),
    ];
    let sentence =
        "line {}: value {} is enqueued at ticket {}, and in line {} at ticket {} already";
    Message::of(alloc, sentence, &blanks, DISTINCT)
}

/// Builds the message for an initial value that is enqueued.
fn initial_message(
    alloc: Global,
    given: &Given<'_>,
    initial: usize,
    call: &Placed,
) -> Result<Message, AllocError> {
    let blanks = [
        line_blank(given, call),
        Number(value_of(call)),
        Number(call.event.ticket),
        Number(initial_line(initial)),
    ];
    let sentence =
        "line {}: value {} is enqueued at ticket {}, and in the queue first, as line {} says";
    Message::of(alloc, sentence, &blanks, DISTINCT)
}

/// Builds the message for an initial value that is listed twice.
fn twice_message(
    alloc: Global,
    value: u64,
    earlier: usize,
    later: usize,
) -> Result<Message, AllocError> {
    let blanks = [
        Number(initial_line(later)),
        Number(value),
        Number(initial_line(earlier)),
    ];
    let sentence = "line {}: the initial value {} stands in line {} too";
    Message::of(alloc, sentence, &blanks, DISTINCT)
}

/// Builds the message for an enqueue without a return.
fn pending_enqueue(
    alloc: Global,
    given: &Given<'_>,
    call: &Placed,
    value: u64,
) -> Result<Message, AllocError> {
    let ticket = Number(call.event.ticket);
    let thread = Number(u64::from(call.event.thread));
    let blanks = [
        line_blank(given, call),
        ticket,
        ticket,
        thread,
        Number(value),
    ];
    let sentence = "line {}: the call of ticket {} never returns: '{} {} call-enq {}'";
    Message::of(alloc, sentence, &blanks, OPEN_CALLS)
}

/// Builds the message for a dequeue without a return.
fn pending_dequeue(alloc: Global, given: &Given<'_>, call: &Placed) -> Result<Message, AllocError> {
    let ticket = Number(call.event.ticket);
    let thread = Number(u64::from(call.event.thread));
    let blanks = [line_blank(given, call), ticket, ticket, thread];
    let sentence = "line {}: the call of ticket {} never returns: '{} {} call-deq'";
    Message::of(alloc, sentence, &blanks, OPEN_CALLS)
}

/// Builds the message for a call without a return.
fn pending_message(alloc: Global, given: &Given<'_>, call: &Placed) -> Result<Message, AllocError> {
    match call.event.what {
        What::CallEnq(value) => pending_enqueue(alloc, given, call, value),
        _ => pending_dequeue(alloc, given, call),
    }
}

/// Builds the message for a clash.
fn clash_message(alloc: Global, clash: &Clash, given: &Given<'_>) -> Result<Message, AllocError> {
    match clash {
        Clash::Tickets(before, later) => return order_message(alloc, given, before, later),
        Clash::Calls(pending, later) => return calls_message(alloc, given, pending, later),
        Clash::Return(call, later) => return return_message(alloc, given, call, later),
        Clash::Values(first, later) => return values_message(alloc, given, first, later),
        Clash::Initial(initial, call) => return initial_message(alloc, given, *initial, call),
        Clash::Twice(value, earlier, later) => {
            return twice_message(alloc, *value, *earlier, *later);
        }
        Clash::Pending(call) => return pending_message(alloc, given, call),
    }
}

/// Builds the message for a fault that no other line explains.
fn fault_message(
    alloc: Global,
    fault: HistoryFault,
    given: &Given<'_>,
) -> Result<Message, AllocError> {
    let (place, what) = match fault {
        HistoryFault::BadThread(place) => (place, "its thread is above 63"),
        HistoryFault::ReturnWithoutCall(place) => {
            (place, "a thread returns, and has no call that waits for it")
        }
        HistoryFault::WrongReturn(place) => {
            (
                place,
                "a thread returns from another kind of call than it made",
            )
        }
        HistoryFault::Memory => return Message::of(alloc, "memory ran out", &[], ""),
        _ => {
            return Message::of(
                alloc,
                "memory ran out for saying which events clash",
                &[],
                "",
            );
        },
    };
    event_message(alloc, given, place, what)
}

/// Builds the message for a fault of a history, with the clash if that is known.
pub(crate) fn history_message(
    alloc: Global,
    fault: HistoryFault,
    clash: Option<&Clash>,
    given: &Given<'_>,
) -> Result<Message, AllocError> {
    match clash {
        Some(clash) => clash_message(alloc, clash, given),
        None => fault_message(alloc, fault, given),
    }
}
