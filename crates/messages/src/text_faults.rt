//! Messages about inputs that aren't well-formed texts.
use crate::complaints::{Given, Reads};
use crate::ends::{counted_in, cut_message, trailing_message};
use crate::history_faults::BY_CLOCK;
use crate::input::{Part, counted, counts_events, end_line, line_of, open_line, part_of};
use crate::message::Blank::{Number, Shown, Words};
use crate::message::Message;
use crate::ranges::{Ranged, first_faulty, first_wrong};
use event_records::{MAX_EVENTS, MAX_TICKET};
use std::alloc::{AllocError, Global};
use text_lines::{LONGEST_LINE, TextFault};

/// Advice for a line that ends as lines of other systems do.
const CARRIAGE_RETURNS: &str =
    "a line ends with a line feed alone: tr -d '\\r' takes carriage returns away";

/// Returns the first line of the text.
fn first_line_of(reads: Reads) -> &'static str {
    match reads {
        Reads::Schedule => "fifo-schedule 1",
        Reads::Pending | Reads::Drawable => "fifo-history 1 or 2, or fifo-pending 1 or 2",
        _ => "fifo-history 1 or fifo-history 2",
    }
}

/// Names the contents of a line of this part.
fn form_of(part: Part, reads: Reads) -> &'static str {
    match part {
        Part::Header => first_line_of(reads),
        Part::InitialCount => "initial <k>",
        Part::InitialValue => "<value>",
        Part::Event => "<ticket> <thread> <what>",
        Part::Open => "open <number of pending calls>",
        Part::End if reads == Reads::Schedule => "end <number of steps>",
        Part::End => "end <number of events>",
        Part::Answer => "YES or NO <kind>",
        Part::Operation => "<call> <return> <thread> <what>",
        Part::Setting => "threads <threads> ring <ring>",
        Part::Step => "<step> <thread>",
    }
}

/// Names the number in a last line.
fn counted_form(reads: Reads) -> &'static str {
    match reads {
        Reads::Schedule => "<number of steps>",
        _ => "<number of events>",
    }
}

/// Returns the words that a line of this part may have.
fn words_of(part: Part) -> &'static str {
    match part {
        Part::Event =>
            "<what> is call-enq <value>, ret-enq, ret-not, call-deq, ret-deq <value> or ret-empty",
        Part::Answer => "<kind> is VFresh, VRepeat, VOrd or VWit",
        Part::Operation =>
            "<what> is enq <value>, deq <value>, empty or not <value>; with NO also lines init <value>",
        Part::Step => "<step> is ask-enq, ask-deq, push, effect, ret, close, drain or say",
        _ => "",
    }
}

/// Returns the advice for a line of this part.
fn hint_of(part: Part, line: &[u8]) -> &'static str {
    if line.ends_with(b"\r") {
        CARRIAGE_RETURNS
    } else {
        words_of(part)
    }
}

/// Returns the advice for a line that may end as lines of other systems do.
fn hint_at_end(line: &[u8]) -> &'static str {
    if line.ends_with(b"\r") {
        CARRIAGE_RETURNS
    } else {
        ""
    }
}

/// File formats by their first bytes, with the command that makes a text of each.
const FORMATS: [(&[u8], &str); 9] = [
    (
        b"\x1f\x8b",
        "the input is compressed by gzip: zcat FILE | fifobench ..",
    ),
    (
        b"\x28\xb5\x2f\xfd",
        "the input is compressed by zstd: zstdcat FILE | fifobench ..",
    ),
    (
        b"\xfd7zXZ",
        "the input is compressed by xz: xzcat FILE | fifobench ..",
    ),
    (
        b"BZh",
        "the input is compressed by bzip2: bzcat FILE | fifobench ..",
    ),
    (
        b"PK\x03\x04",
        "the input is a zip archive: unzip -p FILE | fifobench ..",
    ),
    (
        b"\xef\xbb\xbf",
        "the input begins with a byte order mark: tail -c +4 FILE | fifobench ..",
    ),
    (
        b"\xff\xfe",
        "the input is UTF-16: iconv -f UTF-16 -t ASCII FILE | fifobench ..",
    ),
    (
        b"\xfe\xff",
        "the input is UTF-16: iconv -f UTF-16 -t ASCII FILE | fifobench ..",
    ),
    (b"\x7fELF", "the input is a program"),
];

/// Returns the advice for input of another format, which its first bytes show.
pub(crate) fn format_hint(front: &[u8]) -> Option<&'static str> {
    for (first_bytes, hint) in FORMATS {
        if front.starts_with(first_bytes) {
            return Some(hint);
        }
    }
    None
}

/// Returns the advice for a first line.
fn header_hint(reads: Reads, line: &[u8]) -> &'static str {
    if let Some(hint) = format_hint(line) {
        hint
    } else if line.ends_with(b"\r") {
        CARRIAGE_RETURNS
    } else if line == b"YES".as_slice() || line.starts_with(b"NO V") {
        "a verdict comes after the text of its history"
    } else if line.starts_with(b"fifo-pending") {
        "a history with pending calls: fifobench complete < FILE | fifobench check judges it"
    } else if line.starts_with(b"fifo-schedule") {
        "a schedule goes to fifobench sim"
    } else if line.starts_with(b"fifo-history") && reads == Reads::Schedule {
        "a history goes to fifobench check"
    } else {
        ""
    }
}

/// Builds the message for a wrong first line.
fn header_message(alloc: Global, given: &Given<'_>) -> Result<Message, AllocError> {
    let line = line_of(given, 1).unwrap_or(b"");
    Message::of(
        alloc,
        "line 1: expected {}, found '{}'",
        &[Words(first_line_of(given.reads)), Shown(line)],
        header_hint(given.reads, line),
    )
}

/// Counts the fields of a line.
fn fields_of(line: &[u8]) -> u64 {
    line.split(|byte| *byte == b' ').count() as u64
}

/// Builds the message for a line that has other words or another number of fields than this form.
fn form_message<'a>(
    alloc: Global,
    number: u64,
    form: &'a str,
    line: &'a [u8],
    hint: &str,
) -> Result<Message, AllocError> {
    let (number, form, fields) = (Number(number), Words(form), fields_of(line));
    if line.is_empty() {
        let sentence = "line {}: expected {}, found an empty line";
        Message::of(alloc, sentence, &[number, form], hint)
    } else if fields == 1 {
        let sentence = "line {}: expected {}, found 1 field: '{}'";
        Message::of(alloc, sentence, &[number, form, Shown(line)], hint)
    } else {
        let sentence = "line {}: expected {}, found {} fields: '{}'";
        let blanks = [number, form, Number(fields), Shown(line)];
        Message::of(alloc, sentence, &blanks, hint)
    }
}

/// Builds the message for a line that is too long.
fn long_message(alloc: Global, number: u64, line: &[u8]) -> Result<Message, AllocError> {
    let blanks = [Number(number), Number(LONGEST_LINE as u64), Shown(line)];
    Message::of(alloc, "line {} has more than {} bytes: '{}'", &blanks, "")
}

/// Builds the message for a line with wrong words or a wrong number of fields.
fn line_message(alloc: Global, number: u64, given: &Given<'_>) -> Result<Message, AllocError> {
    let part = part_of(given, number);
    let form = form_of(part, given.reads);
    let Some(line) = line_of(given, number) else {
        let blanks = [Number(number), Words(form)];
        return Message::of(alloc, "line {}: expected {}", &blanks, words_of(part));
    };
    if line.len() > LONGEST_LINE {
        return long_message(alloc, number, line);
    }
    form_message(alloc, number, form, line, hint_of(part, line))
}

/// Returns the name of the first number field that has a fault, or else of the number in a last line.
fn wrong_name(part: Part, reads: Reads, line: &[u8]) -> &'static str {
    match first_wrong(part, line) {
        Some((ranged, _)) => ranged.name,
        None => counted_form(reads),
    }
}

/// Returns a line whose numbers have a fault, and its part: the line of this number if it is kept, or else the first
/// of the last lines that has such a fault, since the lines before it have none.
fn numbered_line<'a>(given: &Given<'a>, number: u64) -> Option<(Part, &'a [u8])> {
    match line_of(given, number) {
        Some(line) => Some((part_of(given, number), line)),
        None => first_faulty(given.reads, given.back),
    }
}

/// Builds the message for a field that isn't a number.
fn number_message(alloc: Global, number: u64, given: &Given<'_>) -> Result<Message, AllocError> {
    let Some((part, line)) = numbered_line(given, number) else {
        let sentence = "line {}: a field that should be a number isn't";
        return Message::of(alloc, sentence, &[Number(number)], "");
    };
    let name = wrong_name(part, given.reads, line);
    Message::of(
        alloc,
        "line {}: {} has to be a number in digits, without a 0 before others: '{}'",
        &[Number(number), Words(name), Shown(line)],
        hint_at_end(line),
    )
}

/// Returns the advice for a number out of its range: a ticket above it is rather the reading of a clock.
fn range_hint(ranged: Ranged) -> &'static str {
    if ranged.greatest == MAX_TICKET {
        BY_CLOCK
    } else {
        ""
    }
}

/// Builds the message for a number field that is out of its range.
fn range_message(
    alloc: Global,
    number: u64,
    ranged: Ranged,
    field: &[u8],
) -> Result<Message, AllocError> {
    let blanks = [
        Number(number),
        Words(ranged.name),
        Number(ranged.least),
        Number(ranged.greatest),
        Shown(field),
    ];
    let sentence = "line {}: {} has to be from {} to {}, found {}";
    Message::of(alloc, sentence, &blanks, range_hint(ranged))
}

/// Builds the message for a number out of its range, or for one line too many.
fn limit_message(alloc: Global, number: u64, given: &Given<'_>) -> Result<Message, AllocError> {
    let wrong = numbered_line(given, number).and_then(|(part, line)| first_wrong(part, line));
    match wrong {
        Some((ranged, field)) => range_message(alloc, number, ranged, field),
        None => Message::of(
            alloc,
            "line {}: a number is out of its range, or there are more than {} events or steps",
            &[Number(number), Number(MAX_EVENTS as u64)],
            "",
        ),
    }
}

/// Builds the message for a wrong count of pending calls.
fn open_message(alloc: Global, number: u64, given: &Given<'_>) -> Result<Message, AllocError> {
    let line = line_of(given, number).unwrap_or(b"");
    let sentence = "line {}: '{}' doesn't count the calls without a return";
    Message::of(alloc, sentence, &[Number(number), Shown(line)], "")
}

/// Builds the message for a wrong count.
fn count_message(alloc: Global, given: &Given<'_>) -> Result<Message, AllocError> {
    match open_line(given) {
        Some(open) if counts_events(given) => open_message(alloc, open, given),
        _ => end_message(alloc, given),
    }
}

/// Builds the message for a wrong count in the last line.
fn end_message(alloc: Global, given: &Given<'_>) -> Result<Message, AllocError> {
    let things = Words(counted_in(given.reads));
    let Some(end) = end_line(given) else {
        let sentence = "the last line doesn't count the {} before it";
        return Message::of(alloc, sentence, &[things], "");
    };
    let count = counted(given, end);
    let line = line_of(given, end).unwrap_or(b"");
    let blanks = [Number(end), Shown(line), things, Number(count)];
    let sentence = "line {}: '{}' doesn't count the {} before it, of which there are {}";
    Message::of(alloc, sentence, &blanks, "")
}

/// Builds the message for a fault of a text.
pub(crate) fn text_message(
    alloc: Global,
    fault: TextFault,
    given: &Given<'_>,
) -> Result<Message, AllocError> {
    match fault {
        TextFault::Read => Message::of(alloc, "standard input couldn't be read", &[], ""),
        TextFault::Header => header_message(alloc, given),
        TextFault::Line(number) => line_message(alloc, number, given),
        TextFault::Number(number) => number_message(alloc, number, given),
        TextFault::Limit(number) => limit_message(alloc, number, given),
        TextFault::Count => count_message(alloc, given),
        TextFault::Cut => cut_message(alloc, given),
        TextFault::Trailing => trailing_message(alloc, given),
        TextFault::Memory => Message::of(alloc, "memory ran out", &[], ""),
    }
}
