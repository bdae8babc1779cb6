//! Messages about inputs that end too early or go on too long.
use crate::complaints::{Given, Reads};
use crate::input::{end_line, line_of};
use crate::message::Blank::{Number, Shown, Words};
use crate::message::Message;
use crate::text_faults::format_hint;
use std::alloc::{AllocError, Global};

/// Names the text that is read first.
fn text_name(reads: Reads) -> &'static str {
    match reads {
        Reads::Schedule => "schedule",
        _ => "history",
    }
}

/// Names what the last line counts.
pub(crate) fn counted_in(reads: Reads) -> &'static str {
    match reads {
        Reads::Schedule => "steps",
        _ => "events",
    }
}

/// Counts the line feeds.
fn line_feeds(bytes: &[u8]) -> usize {
    bytes.iter().filter(|byte| **byte == b'\n').count()
}

/// Builds the message for an input that ends within its last line.
fn within_line(alloc: Global, given: &Given<'_>) -> Result<Message, AllocError> {
    let number = (line_feeds(given.front) as u64).saturating_add(1);
    let line = line_of(given, number).unwrap_or(b"");
    let hint = match format_hint(given.front) {
        Some(hint) => hint,
        None => "each line ends with a line feed, the last one too",
    };
    let blanks = [Number(number), Shown(line)];
    Message::of(alloc, "the input ends within line {}: '{}'", &blanks, hint)
}

/// Builds the message for an input that ends after a whole line.
fn behind_line(alloc: Global, given: &Given<'_>) -> Result<Message, AllocError> {
    let number = Number(line_feeds(given.front) as u64);
    if given.reads == Reads::Claim && end_line(given).is_some() {
        return Message::of(
            alloc,
            "the input ends after line {}, and a verdict has to follow the history",
            &[number],
            "a history on its own goes to fifobench check",
        );
    }
    Message::of(
        alloc,
        "the input ends after line {}, before a last line 'end <number of {}>'",
        &[number, Words(counted_in(given.reads))],
        "",
    )
}

/// Builds the message for an input that ends too early.
pub(crate) fn cut_message(alloc: Global, given: &Given<'_>) -> Result<Message, AllocError> {
    let sentence = if !given.is_whole {
        "the input ends before its {} does"
    } else if given.front.is_empty() {
        "the input is empty, and has to begin with the text of a {}"
    } else if given.front.ends_with(b"\n") {
        return behind_line(alloc, given);
    } else {
        return within_line(alloc, given);
    };
    Message::of(alloc, sentence, &[Words(text_name(given.reads))], "")
}

/// Returns the advice for a line after the text.
fn hint_behind(reads: Reads, line: &[u8]) -> &'static str {
    if reads == Reads::Schedule {
        "sim takes one schedule: take the first by sed '/^end /q'"
    } else if reads == Reads::Drawable {
        "a pending text has no verdict of its own, and draw shows that of its completion: sed '/^end /q' keeps the text"
    } else if line.starts_with(b"YES") || line.starts_with(b"NO") {
        "a verdict follows the history: fifobench verify takes both, and sed '/^end /q' keeps the history"
    } else {
        "one history is taken at a time: take the first by sed '/^end /q'"
    }
}

/// Builds the message for an input that goes on after its text.
pub(crate) fn trailing_message(alloc: Global, given: &Given<'_>) -> Result<Message, AllocError> {
    let name = Words(text_name(given.reads));
    let Some(end) = end_line(given) else {
        let hint = hint_behind(given.reads, b"YES");
        return Message::of(alloc, "the input goes on after its {}", &[name], hint);
    };
    let line = line_of(given, end.saturating_add(1)).unwrap_or(b"");
    Message::of(
        alloc,
        "the {} ends with line {}, and the input goes on: '{}'",
        &[name, Number(end), Shown(line)],
        hint_behind(given.reads, line),
    )
}
