//! Writers of verdict texts.
ghost use Rattle.std.specs.Prelude.{◌≡◌, ◌+◌, ◌≤◌, ◌∷◌, ◌++◌, [], length, codes};
ghost use Rattle.std.specs.List.{flat_map};
ghost use Rattle.history_merge.specs.Operations.{operations_of};
ghost use Rattle.text_lines.specs.Lines.{line, spaced};
ghost use Rattle.history_text.specs.Verdicts.{kind_fields, kind_name, operation_line, claim_line};
ghost use Rattle.history_text.specs.Verdicts.{verdict_text, IsWithin, maybe_place, violation_places};
ghost use Rattle.history_text.specs.Verdicts.{places_of_step, violation_kind, claim_of};
ghost use Rattle.history_text.specs.Inner.Verdicts.{line_text, lines_text, word_of};
ghost use Rattle.history_text.specs.declared.version.Version.TheVariants.{One};
ghost use Rattle.history_text.specs.Versions.{said_in, text_of};
ghost use Rattle.claims.specs.declared.shown.LinePlace.TheVariants as place;
ghost use Rattle.text_lines.specs.Writing.{Puts, Writes, PutsText};

use crate::history_writer::write_history;
use crate::lines::{WritesLine, put_each};
use crate::version::Version;
use claims::{ClaimLine, LinePlace, Verdict};
use history_merge::{History, OpId, OpKind, Operation, Operations};
use text_lines::{TextSink, WriteBuffer, WriteFault, write_piece};
use value_match::{CoverStep, Violation};

#[inline(always)]
fn push_kind(kept: &mut WriteBuffer, kind: OpKind, word: &'static [u8; 4])
    requires room { length kept.old + 29 ≤ 4096 }
    requires word { word.now ≡ word_of kind }
    ensures words { kept.new ≡ kept.old ++ spaced (kind_fields kind) }
    ensures short { length kept.new ≤ length kept.old + 29 }
{
    match kind {
        OpKind::Enqueue(value) | OpKind::Dequeue(value) | OpKind::EnqueueFailed(value) => {
            kept.push(word);
            kept.push_number(value);
        }
        OpKind::DequeueEmpty => kept.push(b"empty"),
    }
}

/// Returns the word of an operation with a value, and a space.
#[inline(always)]
fn word_of(kind: OpKind) -> &'static [u8; 4]
    ensures { result.now ≡ word_of kind }
{
    match kind {
        OpKind::Enqueue(_) => b"enq ",
        OpKind::Dequeue(_) => b"deq ",
        OpKind::EnqueueFailed(_) | OpKind::DequeueEmpty => b"not ",
    }
}

#[inline(always)]
fn push_operation(kept: &mut WriteBuffer, operation: &Operation)
    requires { length kept.old + 96 ≤ 4096 }
    ensures { kept.new ≡ kept.old ++ operation_line operation.now }
{
    // First, so that choosing the word needs no branch.
    let word = word_of(operation.kind);
    kept.push_field(operation.call);
    kept.push_field(operation.ret);
    kept.push_field(u64::from(operation.thread));
    push_kind(kept, operation.kind, word);
    kept.push(b"\n");
}

#[inline(always)]
fn push_line(kept: &mut WriteBuffer, shown: &ClaimLine)
    requires { length kept.old + 96 ≤ 4096 }
    ensures { kept.new ≡ kept.old ++ claim_line shown.now }
{
    match shown {
        ClaimLine::Op(operation) => push_operation(kept, operation),
        ClaimLine::Initial(value) => {
            kept.push(b"init ");
            kept.push_number(*value);
            kept.push(b"\n");
        }
    }
}

/// The writer of the lines at places of these initial values and operations.
#[derive(Clone, Copy)]
struct PlaceLines<'a> {
    initial: &'a [u64],
    operations: &'a Operations<'a>,
}

impl<'a> WritesLine<LinePlace> for PlaceLines<'a> {
    ghost line = { λ all place. line_text all.initial.now all.operations.now place };

    ghost Fits = { λ _ _. Unit {0} };

    #[inline(always)]
    fn push(&self, place: &LinePlace, kept: &mut WriteBuffer) {
        if let Some(shown) = place.line(self.initial, self.operations) {
            push_line(kept, &shown);
        }
    }
}

impl<'a> WritesLine<OpId> for PlaceLines<'a> {
    ghost line = { λ all id. line_text all.initial.now all.operations.now (place.Op id) };

    ghost Fits = { λ _ _. Unit {0} };

    #[inline(always)]
    fn push(&self, id: &OpId, kept: &mut WriteBuffer) {
        WritesLine::<LinePlace>::push(self, &LinePlace::Op(*id), kept);
    }
}

/// Writes the lines of the operations at the first places, and then that at the last one, if there is one.
fn put_with_last<W: TextSink>(
    lines: &PlaceLines,
    first: &[LinePlace],
    last: Option<OpId>,
    kept: &mut WriteBuffer,
    writer: &mut W,
) -> Result<(), WriteFault>
    ensures { PutsText W.contents W.has_refused W.transition kept.old kept.new
        (lines_text lines.now.initial.now lines.now.operations.now (first.now ++ maybe_place last))
        writer.old writer.new result }
{
    put_each(lines, first, kept, writer)?;
    put_each(lines, last.as_slice(), kept, writer)
}

fn put_cover<W: TextSink>(
    lines: &PlaceLines,
    steps: &[CoverStep],
    kept: &mut WriteBuffer,
    writer: &mut W,
) -> Result<(), WriteFault>
    ensures { PutsText W.contents W.has_refused W.transition kept.old kept.new
        (flat_map (λ step. lines_text lines.now.initial.now lines.now.operations.now (places_of_step step)) steps.now)
        writer.old writer.new result }
{
    for step in steps {
        put_with_last(
            lines,
            &[LinePlace::from(step.source)],
            step.dequeue,
            kept,
            writer,
        )?;
    }
    Ok(())
}

/// Returns the first line of a `NO`.
pub fn violation_line(violation: &Violation) -> &'static [u8]
    ensures line { result.now ≡ line (codes "NO " ++ kind_name (violation_kind violation.now)) }
    ensures short { length result.now ≤ 11 }
{
    match violation {
        Violation::Fresh { .. } => b"NO VFresh\n",
        Violation::Repeat { .. } => b"NO VRepeat\n",
        Violation::Order { .. } => b"NO VOrd\n",
        Violation::Witness { .. } => b"NO VWit\n",
    }
}

fn put_violation<W: TextSink>(
    lines: &PlaceLines,
    violation: &Violation,
    kept: &mut WriteBuffer,
    writer: &mut W,
) -> Result<(), WriteFault>
    ensures { PutsText W.contents W.has_refused W.transition kept.old kept.new
        (lines_text lines.now.initial.now lines.now.operations.now (violation_places violation.now))
        writer.old writer.new result }
{
    match violation {
        Violation::Fresh { deq, enq } => {
            put_with_last(lines, &[LinePlace::Op(*deq)], *enq, kept, writer)
        }
        Violation::Repeat { enq, first, second } => {
            let shown = [
                LinePlace::from(*enq),
                LinePlace::Op(*first),
                LinePlace::Op(*second),
            ];
            put_each(lines, &shown, kept, writer)
        }
        Violation::Order {
            enq_a,
            enq_b,
            deq_b,
            deq_a,
        } => put_with_last(
            lines,
            &[
                LinePlace::from(*enq_a),
                LinePlace::from(*enq_b),
                LinePlace::Op(*deq_b),
            ],
            *deq_a,
            kept,
            writer,
        ),
        Violation::Witness { empty, cover } => {
            put_each(lines, &[LinePlace::Op(*empty)], kept, writer)?;
            put_cover(lines, cover.as_slice(), kept, writer)
        }
    }
}

/// Writes the whole text. Its end may be held back.
fn put_verdict<W: TextSink>(
    initial: &[u64],
    operations: &Operations<'_>,
    verdict: &Verdict,
    kept: &mut WriteBuffer,
    writer: &mut W,
) -> Result<(), WriteFault>
    requires { kept.old ≡ [] }
    ensures { PutsText W.contents W.has_refused W.transition [] kept.new
        (verdict_text (claim_of initial.now operations.now verdict.now)) writer.old writer.new result }
{
    let lines = PlaceLines {
        initial,
        operations,
    };
    match verdict {
        Verdict::Yes(order) => {
            kept.push(b"YES\n");
            put_each(&lines, order.as_slice(), kept, writer)
        }
        Verdict::No(violation) => {
            kept.push(violation_line(violation));
            put_violation(&lines, violation, kept, writer)
        }
    }
}

/// Writes the text of a verdict on a history. Takes no memory, and time linear in the text.
///
/// A `YES` lists its operations in their order, a `NO` those that show the violation. The bytes are written in pieces
/// of up to 4,096. The writer isn't flushed.
///
/// The `history` dequeues 7, which was never enqueued:
///
/// ```rust
/// let verdict = decide(alloc, &history)?;
/// let mut output = Watched::new(Vec::new(alloc));
/// write_verdict(&history, &verdict, &mut output)?;
/// assert_eq!(rt;
///     output.into_inner().as_slice(),
///     b"NO VFresh\n0 1 0 deq 7\n".as_slice()
/// );
/// ```
#[tactic(auto, using(text_lines::proofs::Putting::goes_out))]
pub fn write_verdict<W: TextSink>(
    history: &History,
    verdict: &Verdict,
    writer: &mut W,
) -> Result<(), WriteFault>
    // The verdict's places are those of this history's initial values and operations.
    requires { IsWithin history.now.initial (operations_of history.now.events) verdict.now }

    ensures { Writes W.contents W.has_refused W.transition
        (verdict_text (claim_of history.now.initial (operations_of history.now.events) verdict.now))
        writer.old writer.new result }
{
    let mut kept = WriteBuffer::new();
    put_verdict(
        history.initial(),
        &history.operations(),
        verdict,
        &mut kept,
        writer,
    )?;
    write_piece(kept.as_slice(), writer)
}

/// Writes the text of a history and that of a verdict on it, as `stress` prints them and `verify` reads them.
///
/// It writes what [`crate::write_history`] and [`write_verdict`] write, and doesn't flush the writer either.
pub fn write_shown<W: TextSink>(
    version: Version,
    history: &History,
    verdict: &Verdict,
    writer: &mut W,
) -> Result<(), WriteFault>
    requires places { IsWithin history.now.initial (operations_of history.now.events) verdict.now }
    requires version { version ≡ One → history.now.initial ≡ [] }
    ensures { Writes W.contents W.has_refused W.transition
        (text_of (said_in version history.now)
        ++ verdict_text (claim_of history.now.initial (operations_of history.now.events) verdict.now))
        writer.old writer.new result }
{
    write_history(version, history, writer)?;
    write_verdict(history, verdict, writer)
}
