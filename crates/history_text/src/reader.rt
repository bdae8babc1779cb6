//! Reading texts line by line.
ghost use Rattle.std.specs.Prelude.{◌≡◌, ◌+◌, ◌<◌, ◌^◌, ◌≤◌, true, false, IfOk, IfErr, OnErr, OnOk, MatchResult};
ghost use Rattle.std.specs.Prelude.{IfNone, IfSome, option_to_list, is_err, Err, Ok, length, List, []};
ghost use Rattle.event_records.specs.declared.limits.TheConstants.{MAX_INITIAL};
ghost use Rattle.claims.specs.declared.claimed.Claimed.{Claimed};
ghost use Rattle.history_text.specs.declared.schedule.Schedule.{Schedule};
ghost use Rattle.text_lines.specs.Input.{EndOfInput, Failure};
ghost use Rattle.text_lines.specs.Lines.{header_fault, line};
ghost use Rattle.history_text.specs.Items.{item_at_front, line_at_front, line_of, lines_of, HaveLines};
ghost use Rattle.history_text.specs.Versions.{header_of, NoVersionFault, lines_before_events, count_before_events};
ghost use Rattle.history_text.specs.Versions.{text_of, line_count, HaveValueLines, HasText, HistoryText, IsReadAs};
ghost use Rattle.history_text.specs.Schedules.{schedule_text, HasScheduleText};
ghost use Rattle.history_text.specs.Verdicts.{verdict_text};
ghost use Rattle.history_text.specs.Claims.{claim_length, HasVerdictText, first_line, FirstLineFault};
ghost use Rattle.history_text.specs.Reading.{HasTextFault, HasScheduleTextFault, HasVerdictTextFault, HasEndFault};
ghost use Rattle.history_text.specs.Reading.{IsNext, IsOver, Takes, BeginsWith, Fails, IsAll, OfLeft};
ghost use Rattle.history_text.specs.Inner.Taking.{TakesLine, FaultAtFront, BrokenLineFault, NoLineFault};
ghost use Rattle.history_text.specs.Inner.Taking.{TakesItem, TakesItems, HasItemsFault, HasFaultAmong, IsOfInput};
ghost use Rattle.history_text.specs.Inner.Pending.{NoRoomForValues, ValuesFault};
ghost use Rattle.history_text.specs.Pending.{value_lines};
ghost use Rattle.history_text.specs.Reading.{HasFirstFault};
ghost use Rattle.text_lines.specs.Inner.Lines.{IsPartOfLine};

mod pending;

use crate::collecting::Collects;
use crate::item::{Item, ROOM, item_in};
use crate::operation_line::answer_in;
use crate::schedule::{Schedule, Steps};
use crate::source_end::{BUFFER_LEN, SourceEnd, read_at};
use crate::value_line::version_in;
use crate::version::Version;
use claims::{ClaimLines, Claimed, Lines, ViolationKind};
use history_merge::HistoryBuilder;
pub use pending::read_pending;
use std::alloc::Global;
use std::marker::Model;
use text_lines::{LONGEST_LINE, Line, ReadFailed, TextFault, TextSource};

/// A reader of texts, one after another, from one source.
///
/// Contracts see the input that is left, the number of lines read, and whether the reader is stopped. It stays
/// stopped after the first fault that a call returns.
///
/// The source is asked for at most 4,096 bytes at a time, and only once each line that is whole in the buffer was
/// judged. After a read that gave nothing or failed, it isn't asked again.
#[derive(Drop)]
pub struct TextReader<R: TextSource> {
    source: R,
    end: SourceEnd,
    buffer: [u8; BUFFER_LEN + 2 * ROOM],
    at: usize,
    filled: usize,
    lines: u64,
    is_stopped: bool,
}

impl<R: TextSource> Model for TextReader<R> {
    ghost use Rattle.std.specs.Prelude.{◌-◌, ◌≤◌, take, drop};
    ghost use Rattle.history_text.specs.Reading.{Input};
    ghost use Rattle.history_text.specs.Inner.Taking.{behind};

    ghost Value = { Input };

    ghost view = { λ r. record {
      left = record { front = take (r.filled - r.at) (drop r.at r.buffer); behind = behind r.end (R.ahead r.source) };
      lines = r.lines;
      is_stopped = r.is_stopped;
    } };

    // A refill keeps at most ROOM bytes and reads at most BUFFER_LEN: 64 + 4096.
    ghost invariant = { λ r. (r.at ≤ r.filled) × (r.filled ≤ 4160) };
}

impl<R: TextSource> TextReader<R> {
    /// Makes a reader at the beginning of its source. Takes no memory, and reads nothing yet.
    pub fn new(source: R) -> Self
        ensures { result
            ≡ record { left = record { front = []; behind = R.ahead source }; lines = 0; is_stopped = false } }
    {
        TextReader {
            source,
            end: SourceEnd::NotSeen,
            buffer: [0; BUFFER_LEN + 2 * ROOM],
            at: 0,
            filled: 0,
            lines: 0,
            is_stopped: false,
        }
    }

    /// Returns the next byte, or none at the end of the input.
    fn next_byte(&mut self) -> Result<Option<u8>, ReadFailed>
        ensures byte { IfOk result (λ found. Takes self.old.left self.new.left (option_to_list found)) }
        ensures end { IfOk result (λ found. IfNone found (IsOver EndOfInput self.new.left)) }
        ensures failed { OnErr result (Takes self.old.left self.new.left [] × IsOver Failure self.new.left) }
        ensures lines { self.new.lines ≡ self.old.lines }
    {
        if self.at < self.filled {
            let byte = self.buffer[self.at];
            self.at += 1;
            return Ok(Some(byte));
        }
        self.at = 0;
        self.filled = 0;
        self.filled = read_at(&mut self.source, &mut self.end, &mut self.buffer, 0)?;
        if self.filled == 0 {
            return Ok(None);
        }
        self.at = 1;
        Ok(Some(self.buffer[0]))
    }

    /// Returns the next byte, which isn't taken, or none at the end of the input.
    fn peek_byte(&mut self) -> Result<Option<u8>, ReadFailed>
        ensures left { Takes self.old.left self.new.left [] }
        ensures next { IfOk result (IsNext self.new.left) }
        ensures failed { OnErr result (IsOver Failure self.new.left) }
        ensures lines { self.new.lines ≡ self.old.lines }
    {
        if self.at < self.filled {
            return Ok(Some(self.buffer[self.at]));
        }
        self.at = 0;
        self.filled = 0;
        self.filled = read_at(&mut self.source, &mut self.end, &mut self.buffer, 0)?;
        if self.filled == 0 {
            return Ok(None);
        }
        Ok(Some(self.buffer[0]))
    }

    /// Returns the next line, or none at the end of the input. A line that is too long gives the fault `too_long`.
    fn next_line(&mut self, too_long: TextFault) -> Result<Option<Line>, TextFault>
        requires lines { self.old.lines + 1 < 2 ^ 64 }
        requires of_input { IsOfInput too_long }
        ensures ok { IfOk result (TakesLine self.old.left self.new.left) }
        ensures fault { IfErr result (FaultAtFront (BrokenLineFault too_long) self.old.left) }
        ensures of_input { IfErr result IsOfInput }
        ensures lines { self.new.lines ≡ self.old.lines + 1 }
    {
        self.lines += 1;
        let mut line = Line::new();
        loop {
            match self.next_byte() {
                Err(ReadFailed) => return Err(TextFault::Read),
                Ok(None) if line.len() == 0 => return Ok(None),
                Ok(None) => return Err(TextFault::Cut),
                Ok(Some(b'\n')) => return Ok(Some(line)),
                Ok(Some(byte)) => {
                    if line.len() == LONGEST_LINE {
                        return Err(too_long);
                    }
                    line.push_byte(byte);
                }
            }
        }
    }

    /// Returns the next line if it is whole. A line that is too long gives the fault `too_long`.
    #[tactic(auto, using(crate::proofs::FirstFaults::no_line))]
    fn whole_line(&mut self, too_long: TextFault) -> Result<Line, TextFault>
        requires lines { self.old.lines + 1 < 2 ^ 64 }
        requires of_input { IsOfInput too_long }
        ensures ok { IfOk result (λ bytes. Takes self.old.left self.new.left (line bytes) × IsPartOfLine bytes) }
        ensures fault { IfErr result (FaultAtFront (NoLineFault too_long) self.old.left) }
        ensures of_input { IfErr result IsOfInput }
        ensures lines { self.new.lines ≡ self.old.lines + 1 }
    {
        match self.next_line(too_long)? {
            Some(line) => return Ok(line),
            None => return Err(TextFault::Cut),
        }
    }

    /// Takes the first line, which must be `expected`.
    fn header_line(&mut self, expected: &[u8]) -> Result<(), TextFault>
        requires { self.old.lines + 1 < 2 ^ 64 }
        ensures ok { OnOk result (Takes self.old.left self.new.left (line expected.now)) }
        ensures fault { IfErr result
            (FaultAtFront (λ ending fault front. header_fault expected.now ending front ≡ Some fault) self.old.left) }
        ensures of_input { IfErr result IsOfInput }
        ensures lines { self.new.lines ≡ self.old.lines + 1 }
    {
        let line = self.whole_line(TextFault::Header)?;
        if line.as_slice() == expected {
            Ok(())
        } else {
            Err(TextFault::Header)
        }
    }

    /// Returns the version of a history's text, by its first line.
    #[tactic(auto, using(crate::proofs::FirstFaults::other_version))]
    fn version(&mut self) -> Result<Version, TextFault>
        requires { self.old.lines + 1 < 2 ^ 64 }
        ensures ok { IfOk result (λ version. Takes self.old.left self.new.left (line (header_of version))) }
        ensures fault { IfErr result (FaultAtFront NoVersionFault self.old.left) }
        ensures of_input { IfErr result IsOfInput }
        ensures lines { self.new.lines ≡ self.old.lines + 1 }
    {
        let line = self.whole_line(TextFault::Header)?;
        match version_in(line.as_slice()) {
            Some(version) => return Ok(version),
            None => return Err(TextFault::Header),
        }
    }

    /// Fast path: returns the next item after this many, if there is room for it and its line is whole in the buffer.
    #[tactic(auto, using(crate::proofs::Buffers::takes_from_buffer))]
    #[inline(always)]
    fn item_in_buffer<T: Item>(&mut self, count: usize, digits: &mut usize) -> Option<T>
        requires { self.old.lines + 1 < 2 ^ 64 }
        ensures item { IfSome result (λ item. TakesItem T.format self.old.left self.new.left count (Some item)) }
        ensures lines { IfSome result (λ _. self.new.lines ≡ self.old.lines + 1) }
        ensures none { IfNone result (self.new ≡ self.old) }
    {
        let (most, _) = T::limits();
        if count >= most {
            return None;
        }
        let (item, len) = T::at_front(&self.buffer[self.at..], digits)?;
        if len > self.filled - self.at {
            return None;
        }
        self.at += len;
        self.lines += 1;
        Some(item)
    }

    /// Moves the rest of the buffer to its front and refills it, unless a line is whole there, or more bytes than the
    /// fast path reads.
    #[tactic(auto, using(crate::proofs::Buffers::moved_and_read))]
    #[inline(never)]
    fn complete_line(&mut self)
        ensures left { Takes self.old.left self.new.left [] }
        ensures lines { self.new.lines ≡ self.old.lines }
    {
        let left = self.filled - self.at;
        if left > ROOM || self.buffer[self.at..self.filled].contains(&b'\n') {
            return;
        }
        self.buffer.copy_within(self.at..self.filled, 0);
        self.at = 0;
        self.filled = left;
        let read = read_at(&mut self.source, &mut self.end, &mut self.buffer, left);
        if let Ok(count) = read {
            self.filled += count;
        }
    }

    /// Slow path: parses the next line after this many items.
    #[inline(never)]
    fn item_by_line<T: Item>(&mut self, count: usize) -> Result<Option<T>, TextFault>
        requires { self.old.lines + 1 < 2 ^ 64 }
        ensures ok { IfOk result (TakesItem T.format self.old.left self.new.left count) }
        ensures fault { IfErr result
            (FaultAtFront (λ ending fault front. item_at_front T.format (self.old.lines + 1) count ending front
            ≡ Err fault) self.old.left) }
        ensures of_input { IfErr result IsOfInput }
        ensures lines { self.new.lines ≡ self.old.lines + 1 }
    {
        if let Some(line) = self.next_line(TextFault::Line(self.lines + 1))? {
            return item_in(self.lines, count, line.as_slice());
        }
        let (_, is_counted) = T::limits();
        if is_counted {
            return Err(TextFault::Cut);
        }
        Ok(None)
    }

    /// Returns the item of the next line, which must be one. The fast path is tried first.
    fn required_item<T: Item>(&mut self) -> Result<T, TextFault>
        requires { self.old.lines + 1 < 2 ^ 64 }
        ensures ok { IfOk result
            (λ item. Takes self.old.left self.new.left (line_of T.format item) × T.format.HasLine item) }
        ensures fault { IfErr result
            (FaultAtFront (λ ending fault front. line_at_front T.format.read (self.old.lines + 1) ending front
            ≡ Err fault) self.old.left) }
        ensures of_input { IfErr result IsOfInput }
        ensures lines { self.new.lines ≡ self.old.lines + 1 }
    {
        if let Some(item) = self.item_in_buffer(0, &mut 0) {
            return Ok(item);
        }
        let line = self.whole_line(TextFault::Line(self.lines + 1))?;
        T::from_line(self.lines, line.as_slice())
    }

    /// Returns this many items, one from each line.
    fn required_items<T: Item>(&mut self, alloc: Global, count: usize) -> Result<Vec<T>, TextFault>
        requires few { count ≤ T.format.most }
        requires lines { self.old.lines < 2 ^ 63 + 2 ^ 32 }
        ensures items { IfOk result
            (λ v. HaveLines T.format v.items × Takes self.old.left self.new.left (lines_of T.format v.items)) }
        ensures count { IfOk result (λ v. length v.items ≡ count) }
        ensures fault { IfErr result (HasFaultAmong T.format count (self.old.lines + 1) self.old.left) }
        ensures lines { IfOk result (λ v. self.new.lines ≡ self.old.lines + count) }
    {
        let mut items = Vec::new(alloc);
        while items.len() < count {
            let item = self.required_item()?;
            if items.push(item).is_err() {
                return Err(TextFault::Memory);
            }
        }
        Ok(items)
    }

    /// Collects the items up to the last line or the end of the input.
    #[tactic(auto, using(crate::proofs::FirstFaults::no_room))]
    fn collect_items<T: Item, C: Collects<T>>(&mut self, into: &mut C) -> Result<(), TextFault>
        requires { self.old.lines < 2 ^ 63 + 2 ^ 33 }
        ensures collected { IfOk result
            (λ _. (items : List T) × HaveLines T.format items × TakesItems T.format self.old.left self.new.left items
            × (self.new.lines ≡ self.old.lines + 1 + length items) × C.Adds into.old into.new items) }
        ensures fault { IfErr result (HasItemsFault T.format (self.old.lines + 1) self.old.left) }
    {
        let mut count = 0;
        // Number of refills since the last item. After two, the slow path parses the line.
        let mut tries = 0u8;
        let mut digits = 0;
        loop {
            let item = match self.item_in_buffer(count, &mut digits) {
                Some(item) => item,
                None if tries < 2 => {
                    self.complete_line();
                    tries += 1;
                    continue;
                }
                None => match self.item_by_line(count)? {
                    Some(item) => item,
                    None => return Ok(()),
                },
            };
            tries = 0;
            if into.add(item).is_err() {
                return Err(TextFault::Memory);
            }
            count += 1;
        }
    }

    /// Returns the items up to the last line or the end of the input.
    fn items<T: Item>(&mut self, alloc: Global) -> Result<Vec<T>, TextFault>
        requires { self.old.lines < 2 ^ 63 + 2 ^ 33 }
        ensures each { IfOk result (λ v. HaveLines T.format v.items) }
        ensures taken { IfOk result (λ v. TakesItems T.format self.old.left self.new.left v.items) }
        ensures fault { IfErr result (HasItemsFault T.format (self.old.lines + 1) self.old.left) }
        ensures lines { IfOk result (λ v. self.new.lines ≡ self.old.lines + 1 + length v.items) }
    {
        let mut items = Vec::new(alloc);
        self.collect_items(&mut items)?;
        Ok(items)
    }

    /// Returns the version and the initial values of the history's text that the input begins with.
    fn before_events(&mut self, alloc: Global) -> Result<(Version, Vec<u64>), TextFault>
        requires { self.old.lines < 2 ^ 63 }
        ensures values { IfOk result (λ p. HaveValueLines p.0 p.1.items
            × Takes self.old.left self.new.left (lines_before_events p.0 p.1.items)) }
        ensures fault { IfErr result (HasTextFault self.old.lines self.old.left) }
        ensures lines { IfOk result (λ p. self.new.lines ≡ self.old.lines + count_before_events p.0 p.1.items) }
        ensures few { IfOk result (λ p. length p.1.items ≤ MAX_INITIAL) }
    {
        let version = self.version()?;
        let initial = self.initial_values(alloc, version)?;
        Ok((version, initial))
    }

    /// Returns the initial values, which only version 2 has.
    fn initial_values(&mut self, alloc: Global, version: Version) -> Result<Vec<u64>, TextFault>
        requires { self.old.lines < 2 ^ 63 + 1 }
        ensures values { IfOk result
            (λ v. HaveValueLines version v.items × Takes self.old.left self.new.left (value_lines version v.items)) }
        ensures fault { IfErr result
            (HasFirstFault (ValuesFault version (self.old.lines + 1)) (NoRoomForValues version) self.old.left) }
        ensures lines { IfOk result (λ v. self.new.lines + 1 ≡ self.old.lines + count_before_events version v.items) }
        ensures few { IfOk result (λ v. length v.items ≤ MAX_INITIAL) }
    {
        match version {
            Version::One => return Ok(Vec::new(alloc)),
            Version::Two => {
                let count: usize = self.required_item()?;
                return self.required_items(alloc, count);
            }
        }
    }

    /// Returns the version of the history's text that the input begins with, and the builder of its history.
    fn history(&mut self, alloc: Global) -> Result<(Version, HistoryBuilder), TextFault>
        requires { self.old.lines < 2 ^ 63 }
        ensures text { IfOk result
            (λ read. (text : HistoryText) × HasText text × Takes self.old.left self.new.left (text_of text)
            × ((self.new.lines ≡ self.old.lines + line_count text) × IsReadAs text read.0 read.1)) }
        ensures fault { IfErr result (HasTextFault self.old.lines self.old.left) }
    {
        let (version, initial) = self.before_events(alloc)?;
        let mut builder = HistoryBuilder::new(alloc, initial);
        self.collect_items(&mut builder)?;
        Ok((version, builder))
    }

    /// Returns the schedule that the input begins with.
    fn schedule(&mut self, alloc: Global) -> Result<Schedule, TextFault>
        requires { self.old.lines < 2 ^ 63 }
        ensures schedule { IfOk result (λ s. HasScheduleText s × Takes self.old.left self.new.left (schedule_text s)) }
        ensures fault { IfErr result (HasScheduleTextFault self.old.lines self.old.left) }
        ensures lines { IfOk result (λ s. self.new.lines ≡ self.old.lines + 3 + length s.steps) }
    {
        self.header_line(b"fifo-schedule 1")?;
        let (threads, ring): (usize, usize) = self.required_item()?;
        let steps = Steps::from_vec(self.items(alloc)?);
        Ok(Schedule {
            threads,
            ring,
            steps,
        })
    }

    /// Returns the kind in the next line, the first of a verdict; none for a `YES`.
    fn answer(&mut self) -> Result<Option<ViolationKind>, TextFault>
        requires { self.old.lines + 1 < 2 ^ 64 }
        ensures ok { IfOk result (λ answer. Takes self.old.left self.new.left (line (first_line answer))) }
        ensures fault { IfErr result (FaultAtFront (FirstLineFault (self.old.lines + 1)) self.old.left) }
        ensures of_input { IfErr result IsOfInput }
        ensures lines { self.new.lines ≡ self.old.lines + 1 }
    {
        let line = self.whole_line(TextFault::Line(self.lines + 1))?;
        match answer_in(line.as_slice()) {
            Some(answer) => return Ok(answer),
            None => return Err(TextFault::Line(self.lines)),
        }
    }

    /// Returns the verdict that is all of the input. The end of the input counts as one more line.
    fn lines_of_claim(&mut self, alloc: Global) -> Result<Claimed, TextFault>
        requires { self.old.lines < 2 ^ 63 }
        ensures claim { IfOk result (λ c. HasVerdictText c × Takes self.old.left self.new.left (verdict_text c)
            × IsOver EndOfInput self.new.left) }
        ensures fault { IfErr result (HasVerdictTextFault self.old.lines self.old.left) }
        ensures lines { IfOk result (λ c. self.new.lines ≡ self.old.lines + 2 + claim_length c) }
    {
        match self.answer()? {
            None => {
                let operations = Lines::from_vec(self.items(alloc)?);
                return Ok(Claimed::Yes(operations));
            }
            Some(kind) => {
                let lines = ClaimLines::from_vec(self.items(alloc)?);
                return Ok(Claimed::No(kind, lines));
            }
        }
    }

    /// Returns the verdict that is all of the input.
    fn claim(&mut self, alloc: Global) -> Result<Claimed, TextFault>
        requires { self.old.lines < 2 ^ 63 }
        ensures claim { IfOk result (λ c. HasVerdictText c × Takes self.old.left self.new.left (verdict_text c)
            × IsOver EndOfInput self.new.left) }
        ensures fault { IfErr result (HasVerdictTextFault self.old.lines self.old.left) }
        ensures lines { IfOk result (λ c. self.new.lines ≡ self.old.lines + 1 + claim_length c) }
    {
        let claimed = self.lines_of_claim(alloc)?;
        // The end of the input was counted as a line.
        self.lines -= 1;
        Ok(claimed)
    }
}

/// Checks that the input is over. `Trailing` comes if there is one more byte, `Read` if the source fails.
pub fn at_end<R: TextSource>(reader: &mut TextReader<R>) -> Result<(), TextFault>
    requires { reader.old.is_stopped ≡ false }
    ensures left { OnOk result (Takes reader.old.left reader.new.left [] × IsOver EndOfInput reader.new.left) }
    ensures fault { IfErr result (HasEndFault reader.old.left) }
    ensures lines { reader.new.lines ≡ reader.old.lines }
    ensures stopped { reader.new.is_stopped ≡ is_err result }
{
    let result = match reader.next_byte() {
        Ok(None) => Ok(()),
        Ok(Some(_)) => Err(TextFault::Trailing),
        Err(ReadFailed) => Err(TextFault::Read),
    };
    reader.is_stopped = result.is_err();
    result
}

/// Returns the next byte, or none at the end of the input. Takes no byte, so later reads see the same input. `Read`
/// comes if the source fails, which is asked only once no byte from it is left.
pub fn peek<R: TextSource>(reader: &mut TextReader<R>) -> Result<Option<u8>, TextFault>
    requires { reader.old.is_stopped ≡ false }
    ensures left { IfOk result (λ _. Takes reader.old.left reader.new.left []) }
    ensures next { IfOk result (IsNext reader.new.left) }
    ensures fault { IfErr result (λ fault. (fault ≡ TextFault.Read) × OfLeft reader.old.left Fails) }
    ensures lines { reader.new.lines ≡ reader.old.lines }
    ensures stopped { reader.new.is_stopped ≡ is_err result }
{
    let result = match reader.peek_byte() {
        Ok(next) => Ok(next),
        Err(ReadFailed) => Err(TextFault::Read),
    };
    reader.is_stopped = result.is_err();
    result
}

/// Reads the text of a history, of either version, that the input begins with, up to the line feed of its last line.
/// Returns its version, and a builder that holds its initial values and events.
///
/// [`HistoryBuilder::finish`] returns whether they are a complete history. Takes time linear in the bytes read,
/// besides that of the builder, and memory for the initial values and the builder. `Memory` comes only at a line that,
/// like those before it, is whole and without fault.
///
/// The text of one operation:
///
/// ```rust
/// let text = b"fifo-history 1\n0 0 call-enq 7\n1 0 ret-enq\nend 2\n";
/// let mut reader = TextReader::new(MemorySource::new(text));
/// let (_version, builder) = read_history(alloc, &mut reader)?;
/// let recorded = builder.finish()?;
/// assert_eq!(rt; recorded.operations().len(), 1);
/// ```
pub fn read_history<R: TextSource>(
    alloc: Global,
    reader: &mut TextReader<R>,
) -> Result<(Version, HistoryBuilder), TextFault>
    requires running { reader.old.is_stopped ≡ false }
    requires lines { reader.old.lines < 2 ^ 63 }

    // The input begins with the text of this version, these values and these events; nothing else is taken, and the
    // builder has exactly these.
    ensures text { IfOk result
        (λ read. (text : HistoryText) × HasText text × Takes reader.old.left reader.new.left (text_of text)
        × ((reader.new.lines ≡ reader.old.lines + line_count text) × IsReadAs text read.0 read.1)) }

    // A text of either version that the input begins with is read, unless memory runs out.
    ensures whole { (text : HistoryText) → HasText text → BeginsWith reader.old.left (text_of text)
        → MatchResult result (λ read. IsReadAs text read.0 read.1) (λ fault. fault ≡ TextFault.Memory) }

    // The fault is the first one.
    ensures fault { IfErr result (HasTextFault reader.old.lines reader.old.left) }

    ensures stopped { reader.new.is_stopped ≡ is_err result }
{
    let result = reader.history(alloc);
    reader.is_stopped = result.is_err();
    result
}

/// Reads the text of a schedule that the input begins with, up to the line feed of its last line.
///
/// Whether the threads are those of the setting, and whether the steps are accepted, isn't judged. Takes time linear
/// in the bytes read, and memory for the steps alone. `Memory` comes only at a line that, like those before it, is
/// whole and without fault.
pub fn read_schedule<R: TextSource>(
    alloc: Global,
    reader: &mut TextReader<R>,
) -> Result<Schedule, TextFault>
    requires running { reader.old.is_stopped ≡ false }
    requires lines { reader.old.lines < 2 ^ 63 }

    // The input begins with the text of this schedule, and nothing else is taken.
    ensures schedule { IfOk result (λ s. HasScheduleText s × Takes reader.old.left reader.new.left (schedule_text s)) }

    // A text of a schedule that the input begins with is read, unless memory runs out.
    ensures whole { (schedule : Schedule) → HasScheduleText schedule
        → BeginsWith reader.old.left (schedule_text schedule)
        → MatchResult result (λ s. s ≡ schedule) (λ fault. fault ≡ TextFault.Memory) }

    // The fault is the first one.
    ensures fault { IfErr result (HasScheduleTextFault reader.old.lines reader.old.left) }

    ensures lines { IfOk result (λ s. reader.new.lines ≡ reader.old.lines + 3 + length s.steps) }
    ensures stopped { reader.new.is_stopped ≡ is_err result }
{
    let result = reader.schedule(alloc);
    reader.is_stopped = result.is_err();
    result
}

/// Reads the text of a verdict, which continues to the end of the input.
///
/// It may list any operations, and a `NO` any initial values: `verify` decides whether the claim is true. Takes time
/// linear in the bytes read, and memory for the lines alone. `Memory` comes only at a line that, like those before
/// it, is whole and without fault.
pub fn read_verdict<R: TextSource>(
    alloc: Global,
    reader: &mut TextReader<R>,
) -> Result<Claimed, TextFault>
    requires running { reader.old.is_stopped ≡ false }
    requires lines { reader.old.lines < 2 ^ 63 }

    // The input is the text of this claim, and then over.
    ensures claim { IfOk result (λ c. HasVerdictText c × Takes reader.old.left reader.new.left (verdict_text c)
        × IsOver EndOfInput reader.new.left) }

    // If the rest of the input is the text of a claim, it is read, unless memory runs out.
    ensures whole { (claimed : Claimed) → HasVerdictText claimed → IsAll reader.old.left (verdict_text claimed)
        → MatchResult result (λ c. c ≡ claimed) (λ fault. fault ≡ TextFault.Memory) }

    // The fault is the first one.
    ensures fault { IfErr result (HasVerdictTextFault reader.old.lines reader.old.left) }

    ensures lines { IfOk result (λ c. reader.new.lines ≡ reader.old.lines + 1 + claim_length c) }
    ensures stopped { reader.new.is_stopped ≡ is_err result }
{
    let result = reader.claim(alloc);
    reader.is_stopped = result.is_err();
    result
}
