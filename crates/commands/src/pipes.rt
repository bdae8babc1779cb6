//! Standard output whose reader may leave, and standard error, which is silent then.
ghost use Rattle.std.specs.Prelude.{◌≡◌};

use std::io;
use std::io::{ErrorKind, Write};
use std::sync::atomic::{AtomicBool, Ordering};

/// A writer that notes when its reader has left.
#[derive(Drop)]
pub(crate) struct Piped<'a, W> {
    pub inner: W,
    pub is_broken: &'a AtomicBool,
}

impl<'a, W> Piped<'a, W> {
    /// Returns the writer itself.
    pub fn into_inner(self) -> W
        ensures { result ≡ self.entry.inner }
    {
        let Piped {
            inner,
            is_broken: _,
        } = self;
        inner
    }

    /// Returns the same failure, and notes whether the reader has left.
    fn noted(&self, error: io::Error) -> io::Error {
        if error.kind() == ErrorKind::BrokenPipe {
            self.is_broken.store(true, Ordering::SeqCst);
        }
        error
    }
}

impl<'a, W: Write> Write for Piped<'a, W> {
    ghost contents = { λ p. W.contents p.inner };

    fn write(&mut self, piece: &[u8]) -> io::Result<usize> {
        match self.inner.write(piece) {
            Ok(count) => Ok(count),
            Err(error) => Err(self.noted(error)),
        }
    }

    fn flush(&mut self) -> io::Result<()> {
        match self.inner.flush() {
            Ok(()) => Ok(()),
            Err(error) => Err(self.noted(error)),
        }
    }
}

/// A writer that refuses all once a reader has left: whoever ends a pipe early needs no message.
#[derive(Drop)]
pub(crate) struct Muted<'a, W> {
    pub inner: W,
    pub is_broken: &'a AtomicBool,
}

impl<'a, W> Muted<'a, W> {
    /// Returns the writer itself.
    pub fn into_inner(self) -> W
        ensures { result ≡ self.entry.inner }
    {
        let Muted {
            inner,
            is_broken: _,
        } = self;
        inner
    }
}

impl<'a, W: Write> Write for Muted<'a, W> {
    ghost contents = { λ m. W.contents m.inner };

    fn write(&mut self, piece: &[u8]) -> io::Result<usize> {
        if self.is_broken.load(Ordering::SeqCst) {
            return Err(io::Error::from(ErrorKind::BrokenPipe));
        }
        self.inner.write(piece)
    }

    fn flush(&mut self) -> io::Result<()> {
        if self.is_broken.load(Ordering::SeqCst) {
            return Err(io::Error::from(ErrorKind::BrokenPipe));
        }
        self.inner.flush()
    }
}
