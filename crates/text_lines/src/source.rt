ghost use Rattle.std.specs.Prelude.{◌≡◌, ◌≤◌, false, IfOk, length};
ghost use Rattle.text_lines.specs.Input.{Known, ReadGives, known_of};

use std::io::Read;
use std::marker::Model;
use thiserror::Error;

/// The error of a failed read.
#[derive(Clone, Copy, Debug, PartialEq, Eq, Error)]
#[error("Read")]
pub struct ReadFailed;

/// A source from which texts are read.
///
/// Beside what std's `Read` has, contracts see how its bytes end. If they saw the bytes alone, a body that always
/// returns a failed read would meet every contract of a reader.
pub trait TextSource {
    /// The bytes that reads will give from here on, and how they end, as far as this is known.
    ghost ahead: { Self → Known };

    /// Puts bytes at the front of the piece, and returns their number. Gives none only if the piece is empty or the
    /// bytes have ended.
    fn read(&mut self, piece: &mut [u8]) -> Result<usize, ReadFailed>
        ensures bound { IfOk result (λ n. n ≤ length piece.new) }
        ensures bytes { ReadGives (ahead self.old) (ahead self.new) result piece.new };
}

/// A reader or a writer of std as a source or a sink of texts. It notes whether a write or a flush has failed.
///
/// Each call makes one call of the reader or writer, and fails if that fails: an interrupted call isn't repeated. The
/// contracts of std's traits don't speak of failures, so tests show this. Contracts know a reader's bytes if std's
/// `Read` does, but not whether a read fails before their end. For a `MemorySource` they know both.
#[derive(Drop)]
pub struct Watched<T> {
    pub(crate) inner: T,
    pub(crate) has_refused: bool,
    pub(crate) holds_back: bool,
}

impl<T> Model for Watched<T> {
    ghost use Rattle.text_lines.specs.Watching.{Watching};

    ghost Value = { Watching T };

    ghost view = { λ w. record { inner = w.inner; has_refused = w.has_refused; holds_back = w.holds_back } };
}

impl<T> Watched<T> {
    pub fn new(inner: T) -> Self
        ensures { result ≡ record { inner = inner; has_refused = false; holds_back = false } }
    {
        Watched {
            inner,
            has_refused: false,
            holds_back: false,
        }
    }

    pub fn into_inner(self) -> T
        ensures { result ≡ self.inner }
    {
        let Watched {
            inner,
            has_refused: _,
            holds_back: _,
        } = self;
        inner
    }
}

impl<R: Read> TextSource for Watched<R> {
    ghost ahead = { λ w. known_of (R.remaining w.inner) };

    fn read(&mut self, piece: &mut [u8]) -> Result<usize, ReadFailed> {
        match self.inner.read(piece) {
            Ok(count) => Ok(count),
            Err(_) => Err(ReadFailed),
        }
    }
}

impl<S: TextSource> TextSource for &mut S {
    ghost ahead = { λ s. S.ahead s.now };

    fn read(&mut self, piece: &mut [u8]) -> Result<usize, ReadFailed> {
        TextSource::read(&mut **self, piece)
    }
}
