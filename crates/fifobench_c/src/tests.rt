use crate::{
    CALL_DEQ, CALL_ENQ, RET_DEQ, RET_EMPTY, RET_ENQ, RET_NOT, RecordedEvent, fifobench_check,
    fifobench_check_events, fifobench_check_under, fifobench_complete, fifobench_draw,
    fifobench_draw_text, fifobench_shrink, fifobench_shrink_under, fifobench_stats,
    fifobench_verify, fifobench_verify_under,
};
use event_records::MAX_EVENTS;
use std::alloc::{AllocError, Global};
use std::test::Fail;

const OVERTAKEN: &str =
    "fifo-history 1\n0 0 call-enq 7\n1 0 ret-enq\n2 0 call-enq 9\n3 0 ret-enq\n4 0 call-deq\n5 0 ret-deq 9\nend 6\n";

const ITS_VERDICT: &str = "NO VOrd\n0 1 0 enq 7\n2 3 0 enq 9\n4 5 0 deq 9\n";

const ONE_MORE: &str =
    "fifo-history 1\n0 0 call-enq 7\n1 0 ret-enq\n2 0 call-enq 9\n3 0 ret-enq\n4 0 call-deq\n5 0 ret-deq 9\n\
    6 1 call-enq 8\n7 1 ret-not\nend 8\n";

const SHRUNK: &str =
    "fifo-history 1\n0 0 call-enq 7\n1 0 ret-enq\n2 0 call-enq 9\n3 0 ret-enq\n4 0 call-deq\n5 0 ret-deq 9\nend 6\n\
    NO VOrd\n0 1 0 enq 7\n2 3 0 enq 9\n4 5 0 deq 9\n";

const COUNTED: &str =
    "events 0\noperations 0\nthreads 0\nenqueued 0\nrefused 0\ndequeued 0\nempty 0\ninitial 0\nthread-changes 0\n\
    overlapping 0\noverlapping-percent 0.0\nmost-pending 0\nmost-in-queue 0\n\
    overtakes 0\novertaken-at-most 0\n";

/// One of the functions that take a text.
#[derive(Clone, Copy)]
enum Command {
    Check,
    Shrink,
    Verify,
    Draw,
    DrawText,
    Stats,
    Complete,
    CheckUnder(u32),
    ShrinkUnder(u32),
    VerifyUnder(u32),
}

fn call(alloc: Global, command: Command, text: &str, answer: &mut [u8], needed: &mut usize) -> u8 {
    match command {
        Command::Check => fifobench_check(alloc, text.as_bytes(), answer, needed),
        Command::Shrink => fifobench_shrink(alloc, text.as_bytes(), answer, needed),
        Command::Verify => fifobench_verify(alloc, text.as_bytes(), answer, needed),
        Command::Draw => fifobench_draw(alloc, text.as_bytes(), answer, needed),
        Command::DrawText => fifobench_draw_text(alloc, text.as_bytes(), answer, needed),
        Command::Stats => fifobench_stats(alloc, text.as_bytes(), answer, needed),
        Command::Complete => fifobench_complete(alloc, text.as_bytes(), answer, needed),
        Command::CheckUnder(bits) => {
            fifobench_check_under(alloc, text.as_bytes(), bits, answer, needed)
        }
        Command::ShrinkUnder(bits) => {
            fifobench_shrink_under(alloc, text.as_bytes(), bits, answer, needed)
        }
        Command::VerifyUnder(bits) => {
            fifobench_verify_under(alloc, text.as_bytes(), bits, answer, needed)
        }
    }
}

/// Returns whether a call gives this answer about the text, in a buffer with room for more.
fn is_answered(alloc: Global, command: Command, text: &str, wanted: &str, status: u8) -> bool {
    let mut answer = [b'-'; 300];
    let mut needed = 0;
    let told = call(alloc, command, text, &mut answer, &mut needed);
    told == status && is_filled(&answer, needed, wanted)
}

/// Returns whether the buffer holds this text, and is unchanged after it.
fn is_filled(answer: &[u8], needed: usize, wanted: &str) -> bool {
    needed == wanted.len()
        && answer.starts_with(wanted.as_bytes())
        && answer.iter().skip(needed).all(|byte| *byte == b'-')
}

const PENDING: &str =
    "fifo-pending 1\n0 0 call-enq 7\n1 1 call-deq\n2 1 ret-deq 7\nopen 1\nend 3\n";

const COMPLETED: &str =
    "fifo-history 1\n0 0 call-enq 7\n1 1 call-deq\n2 1 ret-deq 7\n3 0 ret-enq\nend 4\n";

const EMPTY: &str = "fifo-history 1\nend 0\n";

const UNSHOWN: &str = "fifo-history 1\n0 0 call-deq\n1 0 ret-empty\nend 2\nYES\n";

/// The values of two producers overtake each other, and a dequeue finds the queue empty while a value is in it.
const PROMISES_LESS: &str =
    "fifo-history 1\n0 0 call-enq 7\n1 0 ret-enq\n2 1 call-enq 9\n3 1 ret-enq\n4 2 call-deq\n\
    5 2 ret-deq 9\n6 2 call-deq\n7 2 ret-empty\nend 8\n";

const EACH_ORDER: &str = "YES\n0 1 0 enq 7\n2 3 1 enq 9\n4 5 2 deq 9\n";

const WITNESS: &str = "NO VWit\n6 7 2 empty\n0 1 0 enq 7\n";

const ITS_WITNESS: &str =
    "fifo-history 1\n0 0 call-enq 7\n1 0 ret-enq\n6 2 call-deq\n7 2 ret-empty\nend 4\n\
    NO VWit\n6 7 2 empty\n0 1 0 enq 7\n";

const OVERTAKES: &str = "NO VOrd\n0 1 0 enq 7\n2 3 1 enq 9\n4 5 2 deq 9\n";

/// The function, the text, the answer and the status.
static ANSWERED: [(Command, &str, &str, u8); 22] = [
    (Command::CheckUnder(0), PROMISES_LESS, OVERTAKES, 1),
    (Command::CheckUnder(1), PROMISES_LESS, WITNESS, 1),
    (Command::CheckUnder(2), PROMISES_LESS, OVERTAKES, 1),
    (Command::CheckUnder(3), PROMISES_LESS, EACH_ORDER, 0),
    (Command::ShrinkUnder(1), PROMISES_LESS, ITS_WITNESS, 1),
    (Command::VerifyUnder(1), ITS_WITNESS, "VALID\n", 0),
    (Command::Check, EMPTY, "YES\n", 0),
    (Command::Check, OVERTAKEN, ITS_VERDICT, 1),
    (Command::Check, "", "REFUSED Cut\n", 2),
    (
        Command::Check,
        "fifo-history 1\n0 0 call-deq\nend 1\n",
        "REFUSED Pending 0\n",
        2,
    ),
    (Command::Shrink, EMPTY, "YES\n", 0),
    (Command::Shrink, ONE_MORE, SHRUNK, 1),
    (Command::Shrink, "fifo\n", "REFUSED Header\n", 2),
    (
        Command::Verify,
        "fifo-history 1\n0 0 call-deq\n1 0 ret-empty\nend 2\nYES\n0 1 0 empty\n",
        "VALID\n",
        0,
    ),
    (Command::Verify, UNSHOWN, "INVALID\n", 1),
    (Command::Verify, EMPTY, "REFUSED Cut\n", 2),
    (Command::Draw, UNSHOWN, "INVALID\n", 1),
    (Command::DrawText, UNSHOWN, "INVALID\n", 1),
    (Command::Draw, "", "REFUSED Cut\n", 2),
    (Command::Stats, EMPTY, COUNTED, 0),
    (Command::Complete, PENDING, COMPLETED, 0),
    (Command::Complete, UNSHOWN, "REFUSED Trailing\n", 2),
];

#[test]
fn answers_texts(rt: HostRuntime) {
    for (command, text, wanted, status) in &ANSWERED {
        assert!(rt;
            is_answered(rt.alloc(), *command, text, wanted, *status),
            "{wanted} {text}"
        );
    }
}

/// Returns whether a buffer of this size gets the verdict if it fits, and is unchanged otherwise. The length and the
/// status have to be right in both cases.
fn fills(alloc: Global, room: usize) -> Result<bool, AllocError> {
    let mut answer = Vec::from_elem(alloc, b'-', room)?;
    let mut needed = 0;
    let told = call(
        alloc,
        Command::Check,
        OVERTAKEN,
        answer.as_mut_slice(),
        &mut needed,
    );
    let is_right = if room < ITS_VERDICT.len() {
        answer.iter().all(|byte| *byte == b'-')
    } else {
        answer.as_slice() == ITS_VERDICT.as_bytes()
    };
    Ok(told == 1 && needed == ITS_VERDICT.len() && is_right)
}

#[test]
fn fills_a_buffer_that_fits_and_no_other(rt: HostRuntime) -> Result<(), Fail> {
    for room in [0, 1, ITS_VERDICT.len() - 1, ITS_VERDICT.len()] {
        assert!(rt; fills(rt.alloc(), room)?, "{room}");
    }
    Ok(())
}

/// An event: its ticket, its thread, its kind, and its value.
type Row = (u64, u32, u32, u64);

fn events_of(alloc: Global, rows: &[Row]) -> Result<Vec<RecordedEvent>, AllocError> {
    let mut events = Vec::new(alloc);
    for (ticket, thread, what, value) in rows {
        events.push(RecordedEvent {
            ticket: *ticket,
            value: *value,
            thread: *thread,
            what: *what,
        })?;
    }
    Ok(events)
}

/// Returns whether the events get this answer, in a buffer with room for more.
fn are_answered(alloc: Global, events: &[RecordedEvent], wanted: &str, status: u8) -> bool {
    let mut answer = [b'-'; 120];
    let mut needed = 0;
    let told = fifobench_check_events(alloc, events, &mut answer, &mut needed);
    told == status && is_filled(&answer, needed, wanted)
}

/// Returns whether the events of the rows get this answer.
fn are_rows_answered(
    alloc: Global,
    rows: &[Row],
    wanted: &str,
    status: u8,
) -> Result<bool, AllocError> {
    let events = events_of(alloc, rows)?;
    Ok(are_answered(alloc, &events, wanted, status))
}

/// One event of each kind. The value of an event that has none is ignored.
const OF_EACH_KIND: &[Row] = &[
    (0, 0, CALL_ENQ, 7),
    (1, 0, RET_ENQ, 5),
    (2, 63, CALL_DEQ, 5),
    (3, 63, RET_DEQ, 7),
    (4, 0, CALL_ENQ, 9),
    (5, 0, RET_NOT, 5),
    (6, 1, CALL_DEQ, 5),
    (7, 1, RET_EMPTY, 5),
];

/// Events, the answer and the status.
static JUDGED: [(&[Row], &str, u8); 11] = [
    (
        OF_EACH_KIND,
        "YES\n0 1 0 enq 7\n2 3 63 deq 7\n4 5 0 not 9\n6 7 1 empty\n",
        0,
    ),
    (&[], "YES\n", 0),
    (
        &[(2, 63, CALL_DEQ, 5), (3, 63, RET_DEQ, 7)],
        "NO VFresh\n2 3 63 deq 7\n",
        1,
    ),
    (&[(0, 0, CALL_DEQ, 0)], "REFUSED Pending 0\n", 2),
    (
        &[(0, 0, CALL_DEQ, 0), (1, 64, RET_EMPTY, 0)],
        "REFUSED BadThread 1\n",
        2,
    ),
    (
        &[(0, 0, CALL_DEQ, 0), (1, 256, RET_EMPTY, 0)],
        "REFUSED BadThread 1\n",
        2,
    ),
    (
        &[(0, 0, CALL_DEQ, 0), (1, u32::MAX, RET_EMPTY, 0)],
        "REFUSED BadThread 1\n",
        2,
    ),
    (
        &[(0, 0, CALL_DEQ, 0), (0, 0, RET_EMPTY, 0)],
        "REFUSED TicketOrder 1\n",
        2,
    ),
    // An unknown kind comes before all other faults.
    (&[(0, 64, 1, 0), (1, 0, 0, 0)], "REFUSED BadWhat 1\n", 2),
    (
        &[(0, 0, CALL_DEQ, 0), (1, 0, 7, 0), (2, 0, 8, 0)],
        "REFUSED BadWhat 1\n",
        2,
    ),
    (&[(0, 0, u32::MAX, 0)], "REFUSED BadWhat 0\n", 2),
];

#[test]
fn judges_events(rt: HostRuntime) -> Result<(), Fail> {
    for (rows, wanted, status) in &JUDGED {
        assert!(rt;
            are_rows_answered(rt.alloc(), rows, wanted, *status)?,
            "{wanted} {rows:?}"
        );
    }
    Ok(())
}

/// Returns whether one event more than the maximum is refused because of the number, and the maximum number because
/// of the kind of the first.
fn refuses_one_more(alloc: Global) -> Result<bool, AllocError> {
    let none = RecordedEvent {
        ticket: 0,
        value: 0,
        thread: 0,
        what: 0,
    };
    let mut events = Vec::from_elem(alloc, none, MAX_EVENTS + 1)?;
    if !are_answered(alloc, events.as_slice(), "REFUSED Limit\n", 2) {
        return Ok(false);
    }
    events.truncate(MAX_EVENTS);
    Ok(are_answered(alloc, events.as_slice(), "REFUSED BadWhat 0\n", 2))
}

#[test]
fn refuses_too_many_events(rt: HostRuntime) -> Result<(), Fail> {
    assert!(rt; refuses_one_more(rt.alloc())?);
    Ok(())
}
