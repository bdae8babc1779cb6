//! Lines after the initial values, in texts whose calls may be pending.
ghost use Rattle.std.specs.Prelude.{◌≡◌, Bool, Some, IfOk, IfErr, OnOk, MatchOption};
ghost use Rattle.history_text.specs.declared.version.Version.{Version};
ghost use Rattle.text_lines.specs.Lines.{IsLineFault, end_line, fields_of, line};
ghost use Rattle.history_text.specs.Histories.{event_format};
ghost use Rattle.history_text.specs.Inner.Pending.{IsEventLine, open_format};
ghost use Rattle.history_text.specs.Inner.Taking.{IsItemLine, IsSpelled};
ghost use Rattle.history_text.specs.Pending as wanted;
ghost use Rattle.history_text.specs.Pending.{first_line_of};

use crate::item::Item;
use crate::value_line::version_in;
use crate::version::Version;
use event_records::{Event, MAX_EVENTS, MAX_THREADS};
use text_lines::{Field, TextFault, end_in, split_field};

/// A line after those of the initial values.
#[derive(Clone, Copy)]
pub(crate) enum EventLine {
    OneEvent(Event),
    /// The line at which the events stop: the last one, or the one that counts this many pending calls.
    Stop(Option<usize>),
}

/// The form of the line that counts pending calls.
const OPEN_FORMS: [((), &[Field]); 1] = [(
    (),
    &[
        Field::Word(b"open"),
        Field::Number {
            least: 0,
            greatest: MAX_THREADS as u64,
        },
    ],
)];

/// Returns whether this is the first line of a pending text, and its version; none if it is no first line.
pub(crate) fn first_line_in(bytes: &[u8]) -> Option<(bool, Version)>
    ensures { MatchOption result
        ((is_pending : Bool) (version : Version) → bytes.now ≡ first_line_of is_pending version → ⊥)
        (λ first. bytes.now ≡ first_line_of first.0 first.1) }
{
    if bytes == b"fifo-pending 1".as_slice() {
        return Some((true, Version::One));
    }
    if bytes == b"fifo-pending 2".as_slice() {
        return Some((true, Version::Two));
    }
    match version_in(bytes) {
        Some(version) => return Some((false, version)),
        None => return None,
    }
}

/// Returns whether the first field is that of the line that counts pending calls.
fn counts_open(bytes: &[u8]) -> bool
    ensures { result ≡ wanted.counts_open (fields_of bytes.now) }
{
    match split_field(bytes) {
        Some((word, _rest)) => word == b"open".as_slice(),
        None => bytes == b"open".as_slice(),
    }
}

/// Parses the number of pending calls from a line.
fn open_in(number: u64, bytes: &[u8]) -> Result<usize, TextFault>
    ensures value { result ≡ wanted.open_in number (fields_of bytes.now) }
    ensures of_line { IfErr result IsLineFault }
    ensures spelled { IfOk result (IsSpelled open_format (fields_of bytes.now)) }
{
    let (_, numbers) = text_lines::parse_line(number, &OPEN_FORMS, bytes)?;
    Ok(numbers.at(0) as usize)
}

/// Parses the event of a whole line after this many events.
fn next_event_in(number: u64, count: usize, bytes: &[u8]) -> Result<Event, TextFault>
    ensures value { result ≡ wanted.next_event_in number count bytes.now }
    ensures of_line { IfErr result IsLineFault }
    ensures spelled { IfOk result (λ event. IsItemLine event_format count bytes.now (Some event)) }
{
    if count >= MAX_EVENTS {
        return Err(TextFault::Limit(number));
    }
    Event::from_line(number, bytes)
}

/// Parses a whole line after this many events, of a history or of a pending text.
pub(crate) fn event_line_in(
    is_pending: bool,
    number: u64,
    count: usize,
    bytes: &[u8],
) -> Result<EventLine, TextFault>
    ensures value { result ≡ wanted.event_line_in is_pending number count bytes.now }
    ensures of_line { IfErr result IsLineFault }
    ensures spelled { IfOk result (IsEventLine is_pending count bytes.now) }
{
    if is_pending && counts_open(bytes) {
        let calls = open_in(number, bytes)?;
        return Ok(EventLine::Stop(Some(calls)));
    }
    if !is_pending && bytes.starts_with(b"end ") {
        last_line_in(number, count, bytes)?;
        return Ok(EventLine::Stop(None));
    }
    let event = next_event_in(number, count, bytes)?;
    Ok(EventLine::OneEvent(event))
}

/// Checks that a whole line counts the events before it.
pub(crate) fn last_line_in(number: u64, count: usize, bytes: &[u8]) -> Result<(), TextFault>
    ensures value { result ≡ wanted.last_line_in number count bytes.now }
    ensures of_line { IfErr result IsLineFault }
    ensures spelled { OnOk result (line bytes.now ≡ end_line count) }
{
    if !bytes.starts_with(b"end ") {
        return Err(TextFault::Line(number));
    }
    end_in(number, count, &bytes[4..])
}
