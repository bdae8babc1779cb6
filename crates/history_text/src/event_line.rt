//! Event lines, parsed by their form, or in one pass.
ghost use Rattle.std.specs.Prelude.{◌≡◌, ◌+◌, ◌≤◌, ◌++◌, ◌∷◌, length, drop, decimal, IfSome, slice_index};
ghost use Rattle.text_lines.specs.Lines.{line, spaced};
ghost use Rattle.history_text.specs.Histories as wanted;
ghost use Rattle.history_text.specs.Histories.{what_fields, HasValueInRange, event_format};
ghost use Rattle.std.proofs.Common.{lit≤};

use crate::item::Item;
use event_records::{Event, MAX_EVENTS, MAX_THREAD, MAX_TICKET, What};
use text_lines::{Field, NumberFields, TextFault, after_word_at, number_at};

/// The field of a ticket.
pub(crate) const TICKET: Field = Field::Number {
    least: 0,
    greatest: MAX_TICKET,
};

/// The field of a thread.
pub(crate) const THREAD: Field = Field::Number {
    least: 0,
    greatest: MAX_THREAD as u64,
};

/// The field of a value.
pub(crate) const VALUE: Field = Field::Number {
    least: 0,
    greatest: u64::MAX,
};

/// The forms of event lines, each with the kind of its events, with 0 as the value.
const EVENT_FORMS: [(What, &[Field]); 6] = [
    (
        What::CallEnq(0),
        &[TICKET, THREAD, Field::Word(b"call-enq"), VALUE],
    ),
    (What::RetEnq, &[TICKET, THREAD, Field::Word(b"ret-enq")]),
    (What::RetNot, &[TICKET, THREAD, Field::Word(b"ret-not")]),
    (What::CallDeq, &[TICKET, THREAD, Field::Word(b"call-deq")]),
    (
        What::RetDeq(0),
        &[TICKET, THREAD, Field::Word(b"ret-deq"), VALUE],
    ),
    (What::RetEmpty, &[TICKET, THREAD, Field::Word(b"ret-empty")]),
];

/// Replaces the value of a kind of events, if it has one.
fn what_with(what: What, value: u64) -> What
    ensures { result ≡ wanted.what_with what value }
{
    match what {
        What::CallEnq(_) => What::CallEnq(value),
        What::RetDeq(_) => What::RetDeq(value),
        What::RetEnq | What::RetNot | What::CallDeq | What::RetEmpty => what,
    }
}

/// Makes the event of a line from its form and its numbers.
fn event_of(what: What, numbers: &NumberFields) -> Event
    requires { slice_index numbers.now 1 ≤ MAX_THREAD }
    ensures { result ≡ wanted.event_of what numbers.now }
{
    Event {
        ticket: numbers.at(0),
        thread: numbers.at(1) as u8,
        what: what_with(what, numbers.at(2)),
    }
}

/// Parses the thread at `at`. Returns it with the place after the space that follows.
#[tactic(auto, using(crate::proofs::FormLines::one_digit, crate::proofs::FormLines::two_digits))]
#[inline(always)]
fn thread_at(bytes: &[u8], at: usize) -> Option<(u8, usize)>
    requires { at + 3 ≤ length bytes.now }
    ensures thread { IfSome result
        (λ p. (drop at bytes.now ≡ decimal p.0 ++ 32 ∷ drop p.1 bytes.now) × (p.0 ≤ MAX_THREAD)) }
    ensures end { IfSome result (λ p. p.1 ≤ at + 3) }
{
    let first = bytes[at].wrapping_sub(b'0');
    if bytes[at + 1] == b' ' && first < 10 {
        return Some((first, at + 2));
    }
    let second = bytes[at + 1].wrapping_sub(b'0');
    if bytes[at + 2] != b' ' || first == 0 || first > 6 || second > 9 {
        return None;
    }
    let thread = first * 10 + second;
    if thread > MAX_THREAD {
        return None;
    }
    Some((thread, at + 3))
}

/// Parses the word, the value if there is one, and the line feed at `at`. Returns the kind of the event with the
/// place after them.
///
/// Eight bytes are compared at once. Calls are separated from returns first, so that fewer branches are hard to
/// predict.
#[inline(always)]
fn what_at(bytes: &[u8], at: usize) -> Option<(What, usize)>
    requires { at + 34 ≤ length bytes.now }
    ensures { IfSome result
        (λ p. (drop at bytes.now ≡ line (spaced (what_fields p.0)) ++ drop p.1 bytes.now) × HasValueInRange p.0) }
{
    if let Some(next) = after_word_at(bytes, at + 1, b"all-enq ") {
        after_word_at(bytes, at, b"c")?;
        let (value, at) = number_at(bytes, next)?;
        let at = after_word_at(bytes, at, b"\n")?;
        return Some((What::CallEnq(value), at));
    }
    if let Some(next) = after_word_at(bytes, at + 1, b"all-deq\n") {
        after_word_at(bytes, at, b"c")?;
        return Some((What::CallDeq, next));
    }
    if let Some(at) = after_word_at(bytes, at, b"ret-enq\n") {
        return Some((What::RetEnq, at));
    }
    if let Some(at) = after_word_at(bytes, at, b"ret-deq ") {
        let (value, at) = number_at(bytes, at)?;
        let at = after_word_at(bytes, at, b"\n")?;
        return Some((What::RetDeq(value), at));
    }
    if let Some(at) = after_word_at(bytes, at, b"ret-not\n") {
        return Some((What::RetNot, at));
    }
    let at = after_word_at(bytes, at, b"ret-empt")?;
    let at = after_word_at(bytes, at, b"y\n")?;
    Some((What::RetEmpty, at))
}

impl Item for Event {
    ghost format = { event_format };

    ghost few = { lit≤ tt };

    fn limits() -> (usize, bool) {
        (MAX_EVENTS, true)
    }

    fn from_line(line: u64, bytes: &[u8]) -> Result<Event, TextFault> {
        let (what, numbers) = text_lines::parse_line(line, &EVENT_FORMS, bytes)?;
        Ok(event_of(what, &numbers))
    }

    #[inline(always)]
    fn at_front(bytes: &[u8], digits: &mut usize) -> Option<(Event, usize)> {
        let (ticket, at) = number_at(bytes, 0)?;
        if ticket > MAX_TICKET || at != *digits {
            *digits = at;
            return None;
        }
        let at = after_word_at(bytes, *digits, b" ")?;
        let (thread, at) = thread_at(bytes, at)?;
        let (what, at) = what_at(bytes, at)?;
        let event = Event {
            ticket,
            thread,
            what,
        };
        Some((event, at))
    }
}
