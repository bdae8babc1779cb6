//! Reads and writes the texts of histories, verdicts and schedules.
//!
//! A history's text has a first line, one line for each event, and a last line that counts them. A schedule's text
//! has steps in place of events, and a second line for its setting. A verdict's text has a first line and one line
//! for each operation, to the end of the input. A reader judges any bytes, in any pieces, from any source: it returns
//! what was written if and only if its text is there, otherwise the first fault with its line.
#![tactic(auto)]

mod collecting;
mod event_line;
mod history_writer;
mod item;
mod laws;
mod lines;
mod operation_line;
mod pending_line;
mod pending_text;
mod reader;
mod schedule;
mod source_end;
mod step_line;
mod value_line;
mod verdict_writer;
mod version;

pub use event_records::MAX_STEPS;
pub use history_writer::{write_events, write_history};
pub use laws::{
    a_claim_on_a_text_has_a_text, a_history_text_is_read_as_itself, a_text_has_no_fault,
    a_text_has_one_claim, a_text_has_one_history, a_text_has_one_schedule,
    no_schedule_text_begins_another, no_text_begins_another, one_first_fault, one_pending_text,
};
pub use pending_text::{EventList, PendingText, Values};
pub use reader::{
    TextReader, at_end, peek, read_history, read_pending, read_schedule, read_verdict,
};
pub use schedule::{MOST_DRAINED, Schedule, Steps};
pub use text_lines::{
    Buffered, MemorySource, ReadFailed, TextFault, TextSink, TextSource, Watched, WriteFault,
    write_piece,
};
pub use verdict_writer::{violation_line, write_shown, write_verdict};
pub use version::Version;
