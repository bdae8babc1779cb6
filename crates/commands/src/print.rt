//! Printing of outcomes, and their statuses.
ghost use Rattle.std.specs.Prelude.{◌≡◌, ℕ, List, Option, OnOk, OnErr, is_err, false};
ghost use Rattle.std.specs.Io.KnownBytes.{Appends};
ghost use Rattle.history_merge.specs.declared.operation.Operation.{Operation};
ghost use Rattle.claims.specs.Claiming.{claim_of};
ghost use Rattle.text_lines.specs.Writing.{AppendsFront, IsWritten, IsRefused, Writes};
ghost use Rattle.commands.specs.Answers.{answer_text, answer_status, claim_status, memory_fault, said_text};
ghost use Rattle.commands.specs.Answers.{verdict_head};
ghost use Rattle.commands.specs.Outcomes.{answer_of, NamesPlaces};
ghost use Rattle.commands.specs.Running.{Prints, PrintsAnswer, PrintsSaid, WritesAndFlushes};

use crate::faults::write_fault;
use crate::outcome::{Fault, Outcome, Report};
use crate::show::write_rejections;
use history_stats::{write_overtakings, write_statistics};
use history_text::{
    TextSink, Version, WriteFault, violation_line, write_events, write_history, write_piece,
    write_shown, write_verdict,
};
use verdicts::Verdict;

/// Writes an outcome.
pub(crate) fn write_outcome<W: TextSink>(
    outcome: &Outcome,
    writer: &mut W,
) -> Result<(), WriteFault>
    requires { NamesPlaces outcome.now }
    ensures { Writes W.contents W.has_refused W.transition
        (answer_text (answer_of outcome.now)) writer.old writer.new result }
{
    match outcome {
        Ok(Report::Judged(history, verdict)) => return write_verdict(history, verdict, writer),
        Ok(Report::Shown(version, history, verdict)) => {
            return write_shown(*version, history, verdict, writer);
        }
        Ok(Report::LeftOpen(rejections)) => {
            write_rejections(rejections.as_slice(), writer)?;
            return write_piece(b"OPEN\n", writer);
        }
        Ok(Report::Played(rejections, history, verdict)) => {
            write_rejections(rejections.as_slice(), writer)?;
            return write_shown(Version::One, history, verdict, writer);
        }
        Ok(Report::Converted(history)) => return write_history(Version::Two, history, writer),
        Ok(Report::Completed(version, initial, events)) => {
            return write_events(*version, initial.as_slice(), events.as_slice(), writer);
        }
        Ok(Report::Verified(true)) => return write_piece(b"VALID\n", writer),
        Ok(Report::Verified(false)) => return write_piece(b"INVALID\n", writer),
        Ok(Report::Counted(statistics)) => return write_statistics(statistics, writer),
        Ok(Report::Overtaken(overtakings)) => {
            return write_overtakings(overtakings.as_slice(), writer);
        }
        Ok(Report::Drawn(picture)) => return write_piece(picture.as_slice(), writer),
        Err(fault) => return write_fault(*fault, writer),
    }
}

fn status_of_verdict(verdict: &Verdict) -> u8
    ensures { (initial : List ℕ) (operations : List Operation)
        → result ≡ claim_status (claim_of initial operations verdict.now) }
{
    match verdict {
        Verdict::Yes(_) => return 0,
        Verdict::No(_) => return 1,
    }
}

/// Returns the status of an outcome.
pub fn status_of(outcome: &Outcome) -> u8
    ensures { result ≡ answer_status (answer_of outcome.now) }
{
    match outcome {
        Ok(Report::Judged(_, verdict)) => return status_of_verdict(verdict),
        Ok(Report::Shown(_, _, verdict)) => return status_of_verdict(verdict),
        Ok(Report::Played(_, _, verdict)) => return status_of_verdict(verdict),
        Ok(Report::LeftOpen(_) | Report::Converted(_) | Report::Completed(..)) => return 0,
        Ok(Report::Counted(_) | Report::Overtaken(_) | Report::Drawn(_)) => return 0,
        Ok(Report::Verified(true)) => return 0,
        Ok(Report::Verified(false)) => return 1,
        Err(fault) => return fault.status(),
    }
}

// Flushes the writer, and returns this status if writing and flushing succeeded, else 3.
fn flush_written<W: TextSink>(written: Result<(), WriteFault>, status: u8, writer: &mut W) -> u8
    requires { W.has_refused writer.old ≡ is_err written }
    ensures printed { (before : Option (List ℕ)) (text : List ℕ)
        → OnOk written (Appends before (W.contents writer.old) text)
        → OnErr written (AppendsFront before (W.contents writer.old) text)
        → Prints before (W.contents writer.new) (W.has_refused writer.new) result text status }
    ensures asked { (before : W) → OnOk written (IsWritten W.transition before writer.old)
        → OnErr written (IsRefused W.transition before writer.old)
        → WritesAndFlushes W.transition (W.has_refused writer.new) before writer.new }
    ensures passed_on { W.has_refused writer.new ≡ false → W.holds_back writer.new ≡ false }
{
    if written.is_err() {
        return 3;
    }
    if writer.flush().is_err() {
        return 3;
    }
    status
}

/// Returns the first line of a verdict's text.
fn head_of(verdict: &Verdict) -> &'static [u8]
    ensures { (initial : List ℕ) (operations : List Operation)
        → result.now ≡ verdict_head (claim_of initial operations verdict.now) }
{
    match verdict {
        Verdict::Yes(_) => return b"YES\n",
        Verdict::No(violation) => return violation_line(violation),
    }
}

/// Writes an outcome; of a verdict the first line alone, if it was asked for quietly.
fn write_said<W: TextSink>(
    outcome: &Outcome,
    is_quiet: bool,
    writer: &mut W,
) -> Result<(), WriteFault>
    requires { NamesPlaces outcome.now }
    ensures { Writes W.contents W.has_refused W.transition
        (said_text is_quiet (answer_of outcome.now)) writer.old writer.new result }
{
    if !is_quiet {
        return write_outcome(outcome, writer);
    }
    match outcome {
        Ok(Report::Judged(_, verdict)) => return write_piece(head_of(verdict), writer),
        Ok(Report::Shown(_, _, verdict)) => return write_piece(head_of(verdict), writer),
        Ok(Report::Played(_, _, verdict)) => return write_piece(head_of(verdict), writer),
        Ok(Report::LeftOpen(_)) => return write_piece(b"OPEN\n", writer),
        Ok(Report::Converted(_) | Report::Verified(_)) => return write_outcome(outcome, writer),
        Ok(Report::Completed(..)) => return write_outcome(outcome, writer),
        Ok(Report::Counted(_) | Report::Overtaken(_)) => return write_outcome(outcome, writer),
        Ok(Report::Drawn(_)) => return write_outcome(outcome, writer),
        Err(fault) => return write_fault(*fault, writer),
    }
}

/// Writes an outcome, quietly or whole, flushes the writer, and returns the status.
pub(crate) fn print_outcome<W: TextSink>(outcome: &Outcome, is_quiet: bool, writer: &mut W) -> u8
    requires fresh { W.has_refused writer.old ≡ false }
    requires places { NamesPlaces outcome.now }
    ensures printed { PrintsSaid is_quiet (W.contents writer.old) (W.contents writer.new)
        (W.has_refused writer.new) result (answer_of outcome.now) }
    ensures asked { WritesAndFlushes W.transition (W.has_refused writer.new) writer.old writer.new }
    ensures passed_on { W.has_refused writer.new ≡ false → W.holds_back writer.new ≡ false }
{
    let written = write_said(outcome, is_quiet, writer);
    flush_written(written, status_of(outcome), writer)
}

/// Writes that memory ran out, flushes the writer, and returns the status.
pub(crate) fn print_memory<W: TextSink>(writer: &mut W) -> u8
    requires fresh { W.has_refused writer.old ≡ false }
    ensures printed { PrintsAnswer (W.contents writer.old) (W.contents writer.new)
        (W.has_refused writer.new) result memory_fault }
    ensures asked { WritesAndFlushes W.transition (W.has_refused writer.new) writer.old writer.new }
    ensures passed_on { W.has_refused writer.new ≡ false → W.holds_back writer.new ≡ false }
{
    print_outcome(&Err(Fault::Memory), false, writer)
}

/// Writes a text, flushes the writer, and returns the status.
pub(crate) fn print_text<W: TextSink>(text: &[u8], status: u8, writer: &mut W) -> u8
    requires fresh { W.has_refused writer.old ≡ false }
    ensures printed { Prints (W.contents writer.old) (W.contents writer.new)
        (W.has_refused writer.new) result text.now status }
    ensures asked { WritesAndFlushes W.transition (W.has_refused writer.new) writer.old writer.new }
    ensures passed_on { W.has_refused writer.new ≡ false → W.holds_back writer.new ≡ false }
{
    let written = write_piece(text, writer);
    flush_written(written, status, writer)
}
