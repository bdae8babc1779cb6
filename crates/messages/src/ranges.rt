//! The numbers of a line: their names and ranges.
use crate::complaints::Reads;
use crate::input::{Part, field_of, number_of};
use event_records::{MAX_INITIAL, MAX_RING, MAX_THREAD, MAX_THREADS, MAX_TICKET, MIN_RING};

/// A number that a line must have.
#[derive(Clone, Copy)]
pub(crate) struct Ranged {
    /// Its name, as in docs/FORMATS.md.
    pub name: &'static str,
    pub least: u64,
    pub greatest: u64,
}

/// Makes the range of a name from 0 to the greatest number.
fn up_to(name: &'static str, greatest: u64) -> Option<Ranged> {
    Some(Ranged {
        name,
        least: 0,
        greatest,
    })
}

/// Returns the number at a place of an event's line.
fn in_event(place: usize) -> Option<Ranged> {
    match place {
        0 => up_to("<ticket>", MAX_TICKET),
        1 => up_to("<thread>", u64::from(MAX_THREAD)),
        3 => up_to("<value>", u64::MAX),
        _ => None,
    }
}

/// Returns the number at a place of a verdict's line with this first word.
fn in_operation(first: &[u8], place: usize) -> Option<Ranged> {
    match (first, place) {
        (b"init", 1) => up_to("<value>", u64::MAX),
        (b"init", _) => None,
        (_, 0) => up_to("<call>", MAX_TICKET),
        (_, 1) => up_to("<return>", MAX_TICKET),
        (_, 2) => up_to("<thread>", u64::from(MAX_THREAD)),
        (_, 4) => up_to("<value>", u64::MAX),
        _ => None,
    }
}

/// Returns the number at a place of a schedule's second line.
fn in_setting(place: usize) -> Option<Ranged> {
    match place {
        1 => Some(Ranged {
            name: "<threads>",
            least: 1,
            greatest: MAX_THREADS as u64,
        }),
        3 => Some(Ranged {
            name: "<ring>",
            least: MIN_RING as u64,
            greatest: MAX_RING as u64,
        }),
        _ => None,
    }
}

/// Returns the number at a place of a step's line with this first word.
fn in_step(first: &[u8], place: usize) -> Option<Ranged> {
    match (first, place) {
        (_, 1) => up_to("<thread>", u64::from(MAX_THREAD)),
        (b"drain", 2) => up_to("<k>", MAX_RING as u64),
        (b"say", 3) => up_to("<value>", u64::MAX),
        _ => None,
    }
}

/// Returns the number at a place of a line with this first word.
fn ranged_at(part: Part, first: &[u8], place: usize) -> Option<Ranged> {
    match (part, place) {
        (Part::InitialCount, 1) => up_to("<k>", MAX_INITIAL as u64),
        (Part::Open, 1) => up_to("<number of pending calls>", MAX_THREADS as u64),
        (Part::InitialValue, 0) => up_to("<value>", u64::MAX),
        (Part::Event, _) => in_event(place),
        (Part::Operation, _) => in_operation(first, place),
        (Part::Setting, _) => in_setting(place),
        (Part::Step, _) => in_step(first, place),
        _ => None,
    }
}

/// Returns whether a number field is no number, or out of its range.
fn is_wrong(ranged: Ranged, field: &[u8]) -> bool {
    match number_of(field) {
        Some(number) => number < ranged.least || number > ranged.greatest,
        None => true,
    }
}

/// Returns the first number field of a line that has a fault.
pub(crate) fn first_wrong(part: Part, line: &[u8]) -> Option<(Ranged, &[u8])> {
    let first = field_of(line, 0)?;
    for (place, field) in line.split(|byte| *byte == b' ').enumerate() {
        if let Some(ranged) = ranged_at(part, first, place)
            && is_wrong(ranged, field)
        {
            return Some((ranged, field));
        }
    }
    None
}

/// Returns the part that a line after the first ones is, by its words.
fn part_by_words(reads: Reads, line: &[u8]) -> Part {
    if line.starts_with(b"end ") {
        return Part::End;
    }
    if line.starts_with(b"open ") {
        return Part::Open;
    }
    match field_of(line, 2) {
        _ if reads == Reads::Schedule => Part::Step,
        Some(what) if what.starts_with(b"call-") || what.starts_with(b"ret-") => Part::Event,
        _ => Part::Operation,
    }
}

/// Returns whether a number field of a line has a fault.
fn is_faulty(part: Part, line: &[u8]) -> bool {
    match part {
        Part::End => field_of(line, 1).and_then(number_of).is_none(),
        _ => first_wrong(part, line).is_some(),
    }
}

/// Returns the first line that has a fault in a number field, and its part. The first line may be cut, and isn't
/// looked at.
pub(crate) fn first_faulty<'a>(reads: Reads, lines: &'a [u8]) -> Option<(Part, &'a [u8])> {
    for line in lines.split(|byte| *byte == b'\n').skip(1) {
        let part = part_by_words(reads, line);
        if is_faulty(part, line) {
            return Some((part, line));
        }
    }
    None
}
