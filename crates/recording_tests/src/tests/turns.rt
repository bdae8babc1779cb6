use event_records::{Event, ThreadNo, What, alternates};

const CALL: Event = Event {
    ticket: 0,
    thread: 0,
    what: What::CallEnq(7),
};

const TAKEN: Event = Event {
    ticket: 1,
    thread: 0,
    what: What::RetEnq,
};

const NOT_TAKEN: Event = Event {
    ticket: 5,
    thread: 0,
    what: What::RetNot,
};

const EMPTY: Event = Event {
    ticket: 1,
    thread: 0,
    what: What::RetEmpty,
};

const TAKEN_AT_0: Event = Event {
    ticket: 0,
    thread: 0,
    what: What::RetEnq,
};

const DEQUEUE: Event = Event {
    ticket: 2,
    thread: 0,
    what: What::CallDeq,
};

const GOT: Event = Event {
    ticket: 3,
    thread: 0,
    what: What::RetDeq(7),
};

const AGAIN: Event = Event {
    ticket: 4,
    thread: 0,
    what: What::CallDeq,
};

const EMPTY_AT_3: Event = Event {
    ticket: 3,
    thread: 0,
    what: What::RetEmpty,
};

const EMPTY_AT_9: Event = Event {
    ticket: 9,
    thread: 0,
    what: What::RetEmpty,
};

const LISTS: [(&[Event], bool, &str); 11] = [
    (&[], true, "no events"),
    (&[CALL], false, "a call without its return"),
    (&[CALL, TAKEN], true, "an enqueue"),
    (&[CALL, NOT_TAKEN], true, "a failed enqueue"),
    (&[CALL, TAKEN_AT_0], false, "equal tickets"),
    (&[CALL, EMPTY], false, "a return of the other kind"),
    (&[TAKEN_AT_0], false, "a return first"),
    (&[DEQUEUE, GOT, AGAIN, EMPTY_AT_9], true, "two dequeues"),
    (&[DEQUEUE, GOT, AGAIN], false, "a call last"),
    (
        &[DEQUEUE, AGAIN, GOT, EMPTY_AT_9],
        false,
        "two calls in a row",
    ),
    (
        &[DEQUEUE, GOT, AGAIN, EMPTY_AT_3],
        false,
        "a ticket that falls",
    ),
];

#[test]
fn calls_and_returns_take_turns(rt: HostRuntime) {
    for (events, expected, what) in LISTS {
        assert!(rt; alternates(events) == expected, "{what}");
    }
}

const NUMBERS: [(u8, Option<u8>); 3] = [(0, Some(0)), (63, Some(63)), (64, None)];

#[test]
fn threads_are_numbered_to_63(rt: HostRuntime) {
    for (number, expected) in NUMBERS {
        let found = ThreadNo::new(number).map(|thread| thread.get());
        assert!(rt; found == expected, "{number}");
    }
}
