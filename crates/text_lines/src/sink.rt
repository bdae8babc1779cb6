ghost use Rattle.std.specs.Prelude.{◌≡◌, ◌≤◌, ◌||◌, ℕ, Bool, false, List, Option, IfOk, OnOk, is_err, length};
ghost use Rattle.std.specs.Io.KnownBytes.{Keeps, WriteAppends};
ghost use Rattle.text_lines.specs.Watching.{IsNoted};
ghost use Rattle.text_lines.specs.Writing.{is_refusal, Asked, asked_to_write, asked_to_flush, Writes};

use crate::source::Watched;
use std::io::Write;
use thiserror::Error;

/// The reason why a text isn't written completely.
#[derive(Clone, Copy, Debug, PartialEq, Eq, Error)]
pub enum WriteFault {
    /// The writer failed, or took no byte of a piece that wasn't empty.
    #[error("Write")]
    Write,
}

/// A sink to which texts are written.
///
/// In addition to what std's `Write` has, contracts see whether the sink has refused bytes, and the outcome of each
/// call. If they saw the bytes alone, a body that always returns a failed write would meet every contract of a
/// writer, and so would one that never flushes.
pub trait TextSink {
    /// The bytes that the sink took, if they are known.
    ghost contents: { Self → Option (List ℕ) };

    /// Holds if a call has failed, or took no byte of a piece that wasn't empty.
    ghost has_refused: { Self → Bool };

    /// Holds if some of the bytes that the sink took may not be passed on yet.
    ghost holds_back: { Self → Bool };

    /// Relates the sink before and after a call with this outcome. So contracts see which calls were made, and in
    /// which order.
    ghost transition: { Self → Asked → Self → Type 0 };

    /// Takes bytes from the front of the piece, and returns their number.
    fn write(&mut self, piece: &[u8]) -> Result<usize, WriteFault>
        ensures bound { IfOk result (λ n. n ≤ length piece.now) }
        ensures bytes { WriteAppends (contents self.old) (contents self.new) result piece.now }
        ensures refused { has_refused self.new ≡ (has_refused self.old || is_refusal result piece.now) }
        ensures asked { transition self.old (asked_to_write result piece.now) self.new };

    /// Passes on the bytes that are held back.
    fn flush(&mut self) -> Result<(), WriteFault>
        ensures bytes { Keeps (contents self.old) (contents self.new) }
        ensures refused { has_refused self.new ≡ (has_refused self.old || is_err result) }
        ensures passed_on { OnOk result (holds_back self.new ≡ false) }
        ensures asked { transition self.old (asked_to_flush result) self.new };
}

impl<W: Write> TextSink for Watched<W> {
    ghost contents = { λ w. W.contents w.inner };

    ghost has_refused = { λ w. w.has_refused };

    ghost holds_back = { λ w. w.holds_back };

    ghost transition = { λ old asked new. IsNoted old asked new };

    fn write(&mut self, piece: &[u8]) -> Result<usize, WriteFault> {
        self.holds_back = true;
        match self.inner.write(piece) {
            Ok(count) => {
                if count == 0 && !piece.is_empty() {
                    self.has_refused = true;
                }
                Ok(count)
            }
            Err(_) => {
                self.has_refused = true;
                Err(WriteFault::Write)
            }
        }
    }

    fn flush(&mut self) -> Result<(), WriteFault> {
        match self.inner.flush() {
            Ok(()) => {
                self.holds_back = false;
                Ok(())
            }
            Err(_) => {
                self.has_refused = true;
                Err(WriteFault::Write)
            }
        }
    }
}

/// Writes all of the bytes, in as many calls as the writer needs, or fails after a prefix of them. The writer isn't
/// flushed.
pub fn write_piece<W: TextSink>(piece: &[u8], writer: &mut W) -> Result<(), WriteFault>
    ensures { Writes W.contents W.has_refused W.transition piece.now writer.old writer.new result }
{
    let mut done = 0;
    while done < piece.len() {
        match writer.write(&piece[done..])? {
            0 => return Err(WriteFault::Write),
            count => done += count,
        }
    }
    Ok(())
}
