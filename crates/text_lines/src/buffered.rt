//! A sink that holds bytes back, so that another sink gets a few large pieces.
ghost use Rattle.std.specs.Prelude.{◌≡◌, ◌≤◌, ◌<◌, ◌||◌, ◌==◌, ◌++◌, not, [], length, take, is_err, OnOk, OnErr};
ghost use Rattle.std.specs.Io.KnownBytes.{Keeps, append_known};
ghost use Rattle.text_lines.specs.Writing.{IsWritten, IsRefused, AsksInner};

use crate::sink::{TextSink, WriteFault};
use crate::write_buffer::{BUFFER_LEN, WriteBuffer};
use std::marker::Model;

/// A sink that holds back up to 4,096 bytes, so that its inner sink gets them in a few pieces.
///
/// The bytes are passed on when there is no room for more, or when the sink is flushed, and at no other time: bytes
/// that it holds when it is dropped are lost. They are held in place, so it takes no memory.
#[derive(Drop)]
pub struct Buffered<S: TextSink> {
    inner: S,
    kept: WriteBuffer,
    at: usize,
}

impl<S: TextSink> Model for Buffered<S> {
    ghost use Rattle.std.specs.Prelude.{◌≤◌, ◌-◌, drop, length};
    ghost use Rattle.text_lines.specs.Holding.{Holding};

    ghost Value = { Holding S };

    ghost view = { λ b. record { inner = b.inner; kept = drop b.at b.kept; room = 4096 - length b.kept } };

    ghost invariant = { λ b. (b.at ≤ length b.kept) × (length b.kept ≤ 4096) };
}

impl<S: TextSink> Buffered<S> {
    /// Wraps a sink. Nothing is held back yet.
    pub fn new(inner: S) -> Self
        ensures { result ≡ record { inner = inner; kept = []; room = 4096 } }
    {
        Buffered {
            inner,
            kept: WriteBuffer::new(),
            at: 0,
        }
    }

    /// Returns the inner sink. Bytes that are held back are lost.
    pub fn into_inner(self) -> S
        ensures { result ≡ self.inner }
    {
        let Buffered {
            inner,
            kept: _,
            at: _,
        } = self;
        inner
    }

    /// Writes all bytes that are held back.
    fn pass_on(&mut self) -> Result<(), WriteFault>
        ensures empty { OnOk result (self.new.kept ≡ []) }
        ensures room { OnOk result (self.new.room ≡ 4096) }
        ensures bytes { Keeps (append_known (S.contents self.old.inner) self.old.kept)
            (append_known (S.contents self.new.inner) self.new.kept) }
        ensures refused { S.has_refused self.new.inner ≡ (S.has_refused self.old.inner || is_err result) }
        ensures written { OnOk result (IsWritten S.transition self.old.inner self.new.inner) }
        ensures stopped { OnErr result (IsRefused S.transition self.old.inner self.new.inner) }
    {
        while self.at < self.kept.len() {
            match self.inner.write(&self.kept.as_slice()[self.at..])? {
                0 => return Err(WriteFault::Write),
                count => self.at += count,
            }
        }
        self.kept.clear();
        self.at = 0;
        Ok(())
    }

    /// Makes room for a byte. If there is none, all bytes that are held back are written.
    fn make_room(&mut self) -> Result<(), WriteFault>
        ensures room { OnOk result (0 < self.new.room) }
        ensures bytes { Keeps (append_known (S.contents self.old.inner) self.old.kept)
            (append_known (S.contents self.new.inner) self.new.kept) }
        ensures refused { S.has_refused self.new.inner ≡ (S.has_refused self.old.inner || is_err result) }
        ensures written { OnOk result (IsWritten S.transition self.old.inner self.new.inner) }
        ensures stopped { OnErr result (IsRefused S.transition self.old.inner self.new.inner) }
    {
        if self.kept.len() < BUFFER_LEN {
            return Ok(());
        }
        self.pass_on()
    }

    /// Holds back a prefix of the piece, as long as there is room for. Returns its length.
    fn keep(&mut self, piece: &[u8]) -> usize
        requires { 0 < self.old.room }
        ensures bound { result ≤ length piece.now }
        ensures some { result ≡ 0 → length piece.now ≡ 0 }
        ensures kept { self.new.kept ≡ self.old.kept ++ take result piece.now }
        ensures inner { self.new.inner ≡ self.old.inner }
    {
        let count = piece.len().min(BUFFER_LEN - self.kept.len());
        self.kept.push(&piece[..count]);
        count
    }
}

impl<S: TextSink> TextSink for Buffered<S> {
    ghost contents = { λ b. append_known (S.contents b.inner) b.kept };

    ghost has_refused = { λ b. S.has_refused b.inner };

    ghost holds_back = { λ b. not (length b.kept == 0) || S.holds_back b.inner };

    ghost transition = { λ old asked new. AsksInner S.transition old.inner asked new.inner };

    fn write(&mut self, piece: &[u8]) -> Result<usize, WriteFault> {
        self.make_room()?;
        Ok(self.keep(piece))
    }

    fn flush(&mut self) -> Result<(), WriteFault> {
        self.pass_on()?;
        self.inner.flush()
    }
}
