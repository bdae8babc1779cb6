//! Writers of history texts.
ghost use Rattle.std.specs.Prelude.{◌≡◌, ◌+◌, ◌≤◌, ◌++◌, [], length, OnOk, All};
ghost use Rattle.std.specs.List.{flat_map};
ghost use Rattle.text_lines.specs.Lines.{spaced, end_line, greatest_value};
ghost use Rattle.history_text.specs.declared.version.Version.TheVariants.{One, Two};
ghost use Rattle.history_text.specs.Items.{line_of};
ghost use Rattle.history_text.specs.Histories.{what_fields, event_line, HasValueInRange};
ghost use Rattle.history_text.specs.Versions.{value_format, lines_before_events, text_by, text_of, said_in, HasText};
ghost use Rattle.text_lines.specs.Writing.{Puts, Writes, PutsText};

use crate::lines::{WritesLine, put_each, put_one};
use crate::version::Version;
use event_records::{Event, What};
use history_merge::{Events, History};
use packed_events::PackedEvent;
use text_lines::{TextSink, WriteBuffer, WriteFault, make_room, write_piece};

#[inline(always)]
fn push_what(kept: &mut WriteBuffer, what: What)
    requires { length kept.old + 29 ≤ 4096 }
    ensures words { kept.new ≡ kept.old ++ spaced (what_fields what) }
    ensures short { length kept.new ≤ length kept.old + 29 }
    ensures fits { HasValueInRange what }
{
    match what {
        What::CallEnq(value) => {
            kept.push(b"call-enq ");
            kept.push_number(value);
        }
        What::RetEnq => kept.push(b"ret-enq"),
        What::RetNot => kept.push(b"ret-not"),
        What::CallDeq => kept.push(b"call-deq"),
        What::RetDeq(value) => {
            kept.push(b"ret-deq ");
            kept.push_number(value);
        }
        What::RetEmpty => kept.push(b"ret-empty"),
    }
}

/// The writer of the lines of initial values and events.
#[derive(Clone, Copy)]
struct HistoryLines;

impl WritesLine<u64> for HistoryLines {
    ghost line = { λ _. line_of value_format };

    ghost Fits = { λ _ value. value ≤ greatest_value };

    #[inline(always)]
    fn push(&self, value: &u64, kept: &mut WriteBuffer) {
        kept.push_number(*value);
        kept.push(b"\n");
    }
}

impl WritesLine<Event> for HistoryLines {
    ghost line = { λ _. event_line };

    ghost Fits = { λ _ event. HasValueInRange event.what };

    #[inline(always)]
    fn push(&self, event: &Event, kept: &mut WriteBuffer) {
        kept.push_field(event.ticket);
        kept.push_field(u64::from(event.thread));
        push_what(kept, event.what);
        kept.push(b"\n");
    }
}

impl WritesLine<PackedEvent> for HistoryLines {
    ghost line = { λ _. event_line };

    ghost Fits = { λ _ event. HasValueInRange event.what };

    #[inline(always)]
    fn push(&self, event: &PackedEvent, kept: &mut WriteBuffer) {
        WritesLine::<Event>::push(self, &event.unpack(), kept);
    }
}

/// Writes the lines of events. The end of the text may be held back.
fn put_events<W: TextSink>(
    events: Events<'_>,
    kept: &mut WriteBuffer,
    writer: &mut W,
) -> Result<(), WriteFault>
    ensures text { PutsText W.contents W.has_refused W.transition kept.old kept.new
        (flat_map event_line events.entry) writer.old writer.new result }
    ensures fits { OnOk result (All (λ e. HasValueInRange e.what) events.entry) }
{
    for event in events {
        put_one(&HistoryLines, &event, kept, writer)?;
    }
    Ok(())
}

/// Writes the lines before the events. The end of the text may be held back.
fn put_before_events<W: TextSink>(
    version: Version,
    initial: &[u64],
    kept: &mut WriteBuffer,
    writer: &mut W,
) -> Result<(), WriteFault>
    requires { kept.old ≡ [] }
    ensures text { PutsText W.contents W.has_refused W.transition [] kept.new
        (lines_before_events version initial.now) writer.old writer.new result }
    ensures fits { version ≡ Two → OnOk result (All (λ v. v ≤ greatest_value) initial.now) }
{
    match version {
        Version::One => {
            kept.push(b"fifo-history 1\n");
            return Ok(());
        }
        Version::Two => {
            kept.push(b"fifo-history 2\ninitial ");
            kept.push_number(initial.len() as u64);
            kept.push(b"\n");
            put_each(&HistoryLines, initial, kept, writer)
        }
    }
}

/// Writes the last line, which counts the events.
fn put_end<W: TextSink>(
    count: usize,
    kept: &mut WriteBuffer,
    writer: &mut W,
) -> Result<(), WriteFault>
    ensures { PutsText W.contents W.has_refused W.transition kept.old kept.new
        (end_line count) writer.old writer.new result }
{
    make_room(kept, writer)?;
    kept.push(b"end ");
    kept.push_number(count as u64);
    kept.push(b"\n");
    Ok(())
}

/// Writes the whole text. Its end may be held back.
fn put_text<W: TextSink>(
    version: Version,
    history: &History,
    kept: &mut WriteBuffer,
    writer: &mut W,
) -> Result<(), WriteFault>
    requires kept { kept.old ≡ [] }
    requires version { version ≡ One → history.now.initial ≡ [] }
    ensures text { PutsText W.contents W.has_refused W.transition [] kept.new
        (text_by version history.now.initial history.now.events) writer.old writer.new result }
    ensures readable { OnOk result (HasText (said_in version history.now)) }
{
    put_before_events(version, history.initial(), kept, writer)?;
    put_events(history.events(), kept, writer)?;
    put_end(history.events().len(), kept, writer)
}

/// Writes the text of a history in this version. Takes no memory, and time linear in the text.
///
/// The bytes are written in pieces of up to 4,096. The writer isn't flushed.
#[tactic(auto, using(text_lines::proofs::Putting::goes_out))]
pub fn write_history<W: TextSink>(
    version: Version,
    history: &History,
    writer: &mut W,
) -> Result<(), WriteFault>
    // Version 1 has no initial values.
    requires { version ≡ One → history.now.initial ≡ [] }
    ensures text { Writes W.contents W.has_refused W.transition
        (text_of (said_in version history.now)) writer.old writer.new result }

    // `read_history` reads back what is written, since it reads each text that its input begins with.
    ensures readable { OnOk result (HasText (said_in version history.now)) }
{
    let mut kept = WriteBuffer::new();
    put_text(version, history, &mut kept, writer)?;
    write_piece(kept.as_slice(), writer)
}

/// Writes the text of these values and events. Its end may be held back.
fn put_events_text<W: TextSink>(
    version: Version,
    initial: &[u64],
    events: &[PackedEvent],
    kept: &mut WriteBuffer,
    writer: &mut W,
) -> Result<(), WriteFault>
    requires { kept.old ≡ [] }
    ensures { PutsText W.contents W.has_refused W.transition [] kept.new
        (text_by version initial.now events.now) writer.old writer.new result }
{
    put_before_events(version, initial, kept, writer)?;
    put_each(&HistoryLines, events, kept, writer)?;
    put_end(events.len(), kept, writer)
}

/// Writes the text of initial values and events in this version, as [`write_history`] does for a history. The events
/// may be any. Takes no memory, and time linear in the text.
#[tactic(auto, using(text_lines::proofs::Putting::goes_out))]
pub fn write_events<W: TextSink>(
    version: Version,
    initial: &[u64],
    events: &[PackedEvent],
    writer: &mut W,
) -> Result<(), WriteFault>
    // Version 1 has no initial values.
    requires { version ≡ One → initial.now ≡ [] }
    ensures text { Writes W.contents W.has_refused W.transition
        (text_by version initial.now events.now) writer.old writer.new result }
{
    let mut kept = WriteBuffer::new();
    put_events_text(version, initial, events, &mut kept, writer)?;
    write_piece(kept.as_slice(), writer)
}
