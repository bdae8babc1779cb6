//! Parts that the tests of the readers share.
ghost use Rattle.std.specs.Prelude.{◌≡◌, ◌<◌, IfOk};
ghost use Rattle.text_lines.specs.Input.{Exactly};

use history_text::{MemorySource, ReadFailed, TextFault, TextSource};
use std::alloc::{AllocError, Global};
use std::process::Abort;
use std::sync::atomic::{AtomicUsize, Ordering};
use std::test::Fail;

/// A source that counts its reads.
#[derive(Drop)]
pub(crate) struct Counted<'a> {
    pub(crate) source: MemorySource<'a>,
    pub(crate) reads: &'a AtomicUsize,
}

impl TextSource for Counted<'_> {
    ghost ahead = { λ s. Exactly s.source.ahead };

    fn read(&mut self, piece: &mut [u8]) -> Result<usize, ReadFailed> {
        self.reads.fetch_add(1, Ordering::SeqCst);
        self.source.read(piece)
    }
}

/// Returns the result of a reader, with out of memory as an error of its own.
pub(crate) fn known<T>(answer: Result<T, TextFault>) -> Result<Result<T, TextFault>, AllocError>
    ensures { IfOk result (λ known. known ≡ answer) }
{
    match answer {
        Err(TextFault::Memory) => Err(AllocError),
        answer => Ok(answer),
    }
}

/// The number of lines read, of the kind that the reader counts, or the fault of the input.
pub(crate) type Outcome = Result<Result<usize, TextFault>, AllocError>;

/// Asserts that each prefix of a text, in pieces of `most` bytes, has the fault `Read` if its source fails after it.
pub(crate) fn assert_failures<F>(
    rt: &impl Abort,
    alloc: Global,
    text: &[u8],
    most: usize,
    outcome: F,
) -> Result<(), Fail>
where
    F: Fn(Global, MemorySource<'_>) -> Outcome,
    requires pieces { 0 < most }
    requires outcome { F.IsAlwaysCallable outcome }
{
    for given in 0..text.len() {
        let source = MemorySource::failing(&text[..given]).in_pieces(most);
        let found = outcome(alloc, source)?;
        assert!(rt; found == Err(TextFault::Read), "after {given}");
    }
    Ok(())
}
