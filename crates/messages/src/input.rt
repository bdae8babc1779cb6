//! The lines of the input, and the part of the text that each should be.
ghost use Rattle.std.specs.Prelude.{◌≡◌};

use crate::complaints::{Given, Reads};
use event_records::MAX_INITIAL;
use text_lines::number_in;

/// The part of a text that a line should be.
#[derive(Clone, Copy)]
pub(crate) enum Part {
    /// The first line of a history or a schedule.
    Header,
    /// The number of initial values.
    InitialCount,
    /// An initial value.
    InitialValue,
    /// An event of a history.
    Event,
    /// The line of a pending text that counts its pending calls.
    Open,
    /// The last line of a history or a schedule.
    End,
    /// The first line of a verdict.
    Answer,
    /// A later line of a verdict.
    Operation,
    /// The number of threads of a schedule, and the capacity of their rings.
    Setting,
    /// A step of a schedule.
    Step,
}

/// Returns the number, from 1, of the first line that passes the test.
pub(crate) fn first_line<F: Fn(&[u8]) -> bool>(front: &[u8], is_it: F) -> Option<u64>
    requires { F.IsAlwaysCallable is_it }
{
    for (place, line) in front.split(|byte| *byte == b'\n').enumerate() {
        if is_it(line) {
            return Some((place as u64).saturating_add(1));
        }
    }
    None
}

/// Returns a line by its number from 1, if it is kept; the last one as far as it was read.
pub(crate) fn line_of<'a>(given: &Given<'a>, number: u64) -> Option<&'a [u8]> {
    let place = number.checked_sub(1)? as usize;
    let mut lines = given.front.split(|byte| *byte == b'\n');
    let line = lines.nth(place)?;
    if lines.next().is_none() && (!given.is_whole || line.is_empty()) {
        return None;
    }
    Some(line)
}

/// Returns a field of a line, by its place from 0.
pub(crate) fn field_of(line: &[u8], place: usize) -> Option<&[u8]> {
    line.split(|byte| *byte == b' ').nth(place)
}

/// Parses a whole field as a number.
pub(crate) fn number_of(field: &[u8]) -> Option<u64> {
    number_in(0, u64::MAX, field).ok()
}

/// Returns the number of initial values.
fn initial_count(front: &[u8]) -> u64 {
    let Some(rest) = front
        .strip_prefix(b"fifo-history 2\ninitial ")
        .or_else(|| front.strip_prefix(b"fifo-pending 2\ninitial "))
    else {
        return 0;
    };
    let field = rest.split(|byte| *byte == b'\n').next();
    match field.and_then(number_of) {
        Some(count) => count.min(MAX_INITIAL as u64),
        None => 0,
    }
}

/// Returns the number of lines before the first event or step.
pub(crate) fn lines_before(given: &Given<'_>) -> u64 {
    if given.reads == Reads::Schedule {
        return 2;
    }
    if given.front.starts_with(b"fifo-history 2\n")
        || given.front.starts_with(b"fifo-pending 2\n")
    {
        initial_count(given.front).saturating_add(2)
    } else {
        1
    }
}

/// Returns the number of the last line of the history or schedule, if it is kept.
pub(crate) fn end_line(given: &Given<'_>) -> Option<u64> {
    first_line(given.front, |line| line.starts_with(b"end "))
}

/// Returns the number of the line that counts pending calls, if it is kept.
pub(crate) fn open_line(given: &Given<'_>) -> Option<u64> {
    if !given.front.starts_with(b"fifo-pending ") {
        return None;
    }
    first_line(given.front, |line| line.starts_with(b"open "))
}

/// Returns the number of events or steps before the last line, which has this number.
pub(crate) fn counted(given: &Given<'_>, end: u64) -> u64 {
    let others = u64::from(open_line(given).is_some());
    end.saturating_sub(1)
        .saturating_sub(lines_before(given))
        .saturating_sub(others)
}

/// Returns whether the last line counts the events or steps before it rightly.
pub(crate) fn counts_events(given: &Given<'_>) -> bool {
    let Some(end) = end_line(given) else {
        return false;
    };
    let field = line_of(given, end).and_then(|line| field_of(line, 1));
    field.and_then(number_of) == Some(counted(given, end))
}

/// Returns what the line of this number should be, which comes after the initial values.
fn part_behind(given: &Given<'_>, number: u64) -> Part {
    let item = if given.reads == Reads::Schedule {
        Part::Step
    } else {
        Part::Event
    };
    if open_line(given) == Some(number) {
        return Part::Open;
    }
    match end_line(given) {
        Some(end) if number == end => Part::End,
        Some(end) if number == end.saturating_add(1) => Part::Answer,
        Some(end) if number > end => Part::Operation,
        _ => item,
    }
}

/// Returns whether the input is the text of a `YES` alone, which `draw` reads too.
fn is_yes_alone(given: &Given<'_>) -> bool {
    given.reads == Reads::Drawable && given.front.starts_with(b"YES\n")
}

/// Returns what the line of this number should be.
pub(crate) fn part_of(given: &Given<'_>, number: u64) -> Part {
    if number > 1 && is_yes_alone(given) {
        return Part::Operation;
    }
    if number == 1 {
        return Part::Header;
    }
    if number > lines_before(given) {
        return part_behind(given, number);
    }
    match (given.reads, number) {
        (Reads::Schedule, _) => Part::Setting,
        (_, 2) => Part::InitialCount,
        _ => Part::InitialValue,
    }
}
