//! Reading texts in which calls may be pending.
ghost use Rattle.std.specs.Prelude.{◌≡◌, ◌≢◌, ◌+◌, ◌++◌, ◌<◌, ◌^◌, ◌≤◌, [], true, false};
ghost use Rattle.std.specs.Prelude.{None, Some, Err, IfOk, IfErr, OnOk, is_err, length};
ghost use Rattle.history_text.specs.Reading.{Takes};
ghost use Rattle.text_lines.specs.Lines.{end_line, line};
ghost use Rattle.history_text.specs.Inner.Pending.{HasEventsFault, IsStop, TakesEventLine, TakesEvents};
ghost use Rattle.history_text.specs.Inner.Taking.{FaultAtFront, IsOfInput};
ghost use Rattle.history_text.specs.Items.{HaveLines, lines_of};
ghost use Rattle.history_text.specs.Histories.{event_format};
ghost use Rattle.history_text.specs.Versions.{HaveValueLines};
ghost use Rattle.history_text.specs.Pending as wanted;
ghost use Rattle.history_text.specs.Pending.{first_line_of, stop_line, lines_after_stop};
ghost use Rattle.history_text.specs.Pending.{whole_line_at_front, NoFirstLine, HasPendingTextFault};
ghost use Rattle.history_text.specs.Pending.{IsPendingRead, lines_at_stop, pending_line_count};

use crate::pending_line::{EventLine, event_line_in, first_line_in, last_line_in};
use crate::pending_text::{EventList, PendingText, Values};
use crate::reader::TextReader;
use crate::version::Version;
use event_records::Event;
use packed_events::PackedEvent;
use std::alloc::Global;
use text_lines::{TextFault, TextSource};

/// Returns whether the fault is that the input ends early, and this is allowed.
fn is_allowed(fault: TextFault, takes_cut: bool) -> bool
    ensures yes { result ≡ true → (takes_cut ≡ true) × (fault ≡ TextFault.Cut) }
    ensures no { result ≡ false → takes_cut ≡ true → fault ≢ TextFault.Cut }
{
    takes_cut && fault == TextFault::Cut
}

impl<R: TextSource> TextReader<R> {
    /// Reads the first line. Returns whether it begins a pending text, and its version.
    fn first_line(&mut self) -> Result<(bool, Version), TextFault>
        requires { self.old.lines + 1 < 2 ^ 64 }
        ensures ok { IfOk result (λ first. Takes self.old.left self.new.left (line (first_line_of first.0 first.1))) }
        ensures fault { IfErr result (FaultAtFront NoFirstLine self.old.left) }
        ensures of_input { IfErr result IsOfInput }
        ensures lines { self.new.lines ≡ self.old.lines + 1 }
    {
        let line = self.whole_line(TextFault::Header)?;
        match first_line_in(line.as_slice()) {
            Some(first) => return Ok(first),
            None => return Err(TextFault::Header),
        }
    }

    /// Reads the next line after this many events.
    #[inline(never)]
    fn event_line(&mut self, is_pending: bool, count: usize) -> Result<EventLine, TextFault>
        requires { self.old.lines + 1 < 2 ^ 64 }
        ensures ok { IfOk result (TakesEventLine is_pending self.old.left self.new.left count) }
        ensures fault { IfErr result (FaultAtFront (λ ending fault front.
            whole_line_at_front (wanted.event_line_in is_pending (self.old.lines + 1) count)
            (self.old.lines + 1) ending front ≡ Err fault) self.old.left) }
        ensures of_input { IfErr result IsOfInput }
        ensures lines { self.new.lines ≡ self.old.lines + 1 }
    {
        let line = self.whole_line(TextFault::Line(self.lines + 1))?;
        event_line_in(is_pending, self.lines, count, line.as_slice())
    }

    /// Reads the next line, which has to count this many events.
    fn last_line(&mut self, count: usize) -> Result<(), TextFault>
        requires { self.old.lines + 1 < 2 ^ 64 }
        ensures ok { OnOk result (Takes self.old.left self.new.left (end_line count)) }
        ensures fault { IfErr result (FaultAtFront (λ ending fault front.
            whole_line_at_front (wanted.last_line_in (self.old.lines + 1) count) (self.old.lines + 1) ending front
            ≡ Err fault) self.old.left) }
        ensures of_input { IfErr result IsOfInput }
        ensures lines { self.new.lines ≡ self.old.lines + 1 }
    {
        let line = self.whole_line(TextFault::Line(self.lines + 1))?;
        last_line_in(self.lines, count, line.as_slice())
    }

    /// Collects the events up to the line at which they stop. Returns the number of pending calls that this line
    /// counts.
    fn collect_events(
        &mut self,
        is_pending: bool,
        into: &mut Vec<PackedEvent>,
    ) -> Result<Option<usize>, TextFault>
        requires lines { self.old.lines < 2 ^ 63 + 2 ^ 33 }
        requires empty { into.old.items ≡ [] }
        ensures read { IfOk result (TakesEvents is_pending self.old.left self.new.left into.new.items) }
        ensures lines { IfOk result (λ _. self.new.lines ≡ self.old.lines + 1 + length into.new.items) }
        ensures fault { IfErr result
            (HasEventsFault is_pending (self.old.lines + 1) self.old.left into.new.items None) }
        ensures right { IfErr result (λ fault. IsOfInput fault → HaveLines event_format into.new.items) }
    {
        let mut count = 0;
        // Number of refills since the last event. After two, the slow path parses the line.
        let mut tries = 0u8;
        let mut digits = 0;
        loop {
            let event: Event = match self.item_in_buffer(count, &mut digits) {
                Some(event) => event,
                None if tries < 2 => {
                    self.complete_line();
                    tries += 1;
                    continue;
                }
                None => match self.event_line(is_pending, count)? {
                    EventLine::OneEvent(event) => event,
                    EventLine::Stop(open) => return Ok(open),
                },
            };
            tries = 0;
            if into.push(PackedEvent::new(event)).is_err() {
                return Err(TextFault::Memory);
            }
            count += 1;
        }
    }

    /// Collects the events, and reads the lines after them.
    fn events_to_end(
        &mut self,
        is_pending: bool,
        into: &mut Vec<PackedEvent>,
        open_calls: &mut Option<usize>,
    ) -> Result<(), TextFault>
        requires lines { self.old.lines < 2 ^ 63 + 2 ^ 33 }
        requires empty { into.old.items ≡ [] }
        requires none { open_calls.old ≡ None }
        ensures events { OnOk result (HaveLines event_format into.new.items) }
        ensures stop { OnOk result (IsStop is_pending open_calls.new) }
        ensures taken { OnOk result (Takes self.old.left self.new.left (lines_of event_format into.new.items
            ++ (stop_line open_calls.new (length into.new.items)
            ++ lines_after_stop open_calls.new (length into.new.items)))) }
        ensures lines { OnOk result
            (self.new.lines ≡ self.old.lines + length into.new.items + lines_at_stop open_calls.new) }
        ensures fault { IfErr result
            (HasEventsFault is_pending (self.old.lines + 1) self.old.left into.new.items open_calls.new) }
        ensures right { IfErr result (λ fault. IsOfInput fault → HaveLines event_format into.new.items) }
    {
        *open_calls = self.collect_events(is_pending, into)?;
        if is_pending {
            self.last_line(into.as_slice().len())?;
        }
        Ok(())
    }

    /// Returns the text that the input begins with, and whether it is whole.
    fn pending(&mut self, alloc: Global, takes_cut: bool) -> Result<(PendingText, bool), TextFault>
        requires { self.old.lines < 2 ^ 63 }
        ensures text { IfOk result
            (λ read. IsPendingRead takes_cut self.old.lines self.old.left self.new.left read.0 read.1) }
        ensures lines { IfOk result
            (λ read. HaveValueLines read.0.version read.0.initial × HaveLines event_format read.0.events) }
        ensures count { IfOk result
            (λ read. read.1 ≡ true → self.new.lines ≡ self.old.lines + pending_line_count read.0) }
        ensures fault { IfErr result (HasPendingTextFault takes_cut self.old.lines self.old.left) }
    {
        let (is_pending, version) = self.first_line()?;
        let initial = self.initial_values(alloc, version)?;
        let mut events = Vec::new(alloc);
        let mut open_calls = None;
        let is_whole = match self.events_to_end(is_pending, &mut events, &mut open_calls) {
            Ok(()) => true,
            Err(fault) => {
                if !is_allowed(fault, takes_cut) {
                    return Err(fault);
                }
                false
            }
        };
        let text = PendingText {
            version,
            initial: Values::from_vec(initial),
            events: EventList::from_vec(events),
            open_calls,
        };
        Ok((text, is_whole))
    }
}

/// Reads the text of a history in which calls may be pending: a history's text, or a pending text, which also counts
/// its pending calls. Returns its content, and whether the text is whole.
///
/// With `takes_cut`, an input that ends after some of the events is read as far as its lines are whole, and nothing
/// is left of it. Whether the events are a history, and whether the count of pending calls is right, isn't judged.
/// Takes time linear in the bytes read, and memory for the values and events. `Memory` comes only at a line that,
/// like those before it, is whole and without fault.
pub fn read_pending<R: TextSource>(
    alloc: Global,
    reader: &mut TextReader<R>,
    takes_cut: bool,
) -> Result<(PendingText, bool), TextFault>
    requires running { reader.old.is_stopped ≡ false }
    requires lines { reader.old.lines < 2 ^ 63 }

    // The input begins with the text; or with a part of one, and then ends.
    ensures text { IfOk result
        (λ read. IsPendingRead takes_cut reader.old.lines reader.old.left reader.new.left read.0 read.1) }

    // Whatever the source does, each value and each event has its line.
    ensures lines { IfOk result
        (λ read. HaveValueLines read.0.version read.0.initial × HaveLines event_format read.0.events) }

    ensures count { IfOk result
        (λ read. read.1 ≡ true → reader.new.lines ≡ reader.old.lines + pending_line_count read.0) }

    // The fault is the first one.
    ensures fault { IfErr result (HasPendingTextFault takes_cut reader.old.lines reader.old.left) }

    ensures stopped { reader.new.is_stopped ≡ is_err result }
{
    let result = reader.pending(alloc, takes_cut);
    reader.is_stopped = result.is_err();
    result
}
