ghost use Rattle.std.specs.Prelude.{◌≡◌, ◌≤◌, ◌++◌, [], true, false, IfOk, OnErr, length, take};
ghost use Rattle.text_lines.specs.Input.{ReadGives};
ghost use Rattle.messages.specs.Fronts.{IsKeptBack};

use std::alloc::Global;
use std::marker::Model;
use text_lines::{LONGEST_LINE, ReadFailed, TextSource};

/// The maximum number of bytes at the front that are kept: some 6,000 lines, which cost a short check little.
pub const MOST_KEPT: usize = 1 << 17;

/// The maximum number of bytes that are kept before the last piece. A line that ends in that piece begins among them.
const MOST_BEFORE: usize = 2 * LONGEST_LINE;

/// A source that keeps the front of what it gives, at most 128 KiB, and behind that the last piece, so that a message
/// can show a line.
///
/// It gives what the source gives. If memory runs out for the front, no more of it is kept, and if it does for the
/// back, that is empty.
#[derive(Drop)]
pub struct FrontKept<S> {
    source: S,
    front: Vec<u8>,
    is_whole: bool,
    back: Vec<u8>,
}

impl<S> Model for FrontKept<S> {
    ghost use Rattle.messages.specs.Fronts.{Fronted};

    ghost Value = { Fronted S };

    ghost view = { λ k. record {
      source = k.source;
      front = k.front.items;
      is_whole = k.is_whole;
      back = k.back.items;
    } };
}

impl<S> FrontKept<S> {
    /// Wraps a source. Nothing is kept yet.
    pub fn new(alloc: Global, source: S) -> Self
        ensures { result ≡ record { source = source; front = []; is_whole = true; back = [] } }
    {
        FrontKept {
            source,
            front: Vec::new(alloc),
            is_whole: true,
            back: Vec::new(alloc),
        }
    }

    /// Returns the bytes that are kept: the front of what was given.
    pub fn front(&self) -> &[u8]
        ensures { result.now ≡ self.now.front }
    {
        self.front.as_slice()
    }

    /// Returns whether the kept bytes are all that was given.
    pub fn is_whole(&self) -> bool
        ensures { result ≡ self.now.is_whole }
    {
        self.is_whole
    }

    /// Returns the last bytes that were given, if the front isn't whole: at least those of the last piece.
    pub fn back(&self) -> &[u8]
        ensures { result.now ≡ self.now.back }
    {
        self.back.as_slice()
    }

    /// Keeps these bytes too, at the front if all before them are kept and there is room, or else at the back.
    fn keep(&mut self, given: &[u8])
        ensures source { self.new.source ≡ self.old.source }
        ensures kept { self.new.is_whole ≡ true
            → (self.old.is_whole ≡ true) × (self.new.front ≡ self.old.front ++ given.now) }
        ensures left { self.new.is_whole ≡ false → self.new.front ≡ self.old.front }
        ensures back { self.new.is_whole ≡ false → IsKeptBack given.now self.new.back }
    {
        let room = MOST_KEPT.saturating_sub(self.front.len());
        if self.is_whole && given.len() <= room && self.front.extend_from_slice(given).is_ok() {
            return;
        }
        if self.is_whole {
            self.is_whole = false;
            let start = self.front.len().saturating_sub(MOST_BEFORE);
            append(&mut self.back, &self.front[start..]);
        }
        keep_last(&mut self.back, MOST_BEFORE);
        append(&mut self.back, given);
    }
}

/// Appends these bytes, or empties the list if memory runs out.
fn append(kept: &mut Vec<u8>, given: &[u8])
    ensures { IsKeptBack given.now kept.new.items }
{
    if kept.extend_from_slice(given).is_err() {
        kept.truncate(0);
    }
}

/// Drops all but the last `most` bytes.
fn keep_last(kept: &mut Vec<u8>, most: usize) {
    let excess = kept.len().saturating_sub(most);
    kept.copy_within(excess.., 0);
    kept.truncate(kept.len() - excess);
}

impl<S: TextSource> TextSource for FrontKept<S> {
    ghost ahead = { λ k. S.ahead k.source };

    fn read(&mut self, piece: &mut [u8]) -> Result<usize, ReadFailed>
        ensures bound { IfOk result (λ n. n ≤ length piece.new) }
        ensures bytes { ReadGives (S.ahead self.old.source) (S.ahead self.new.source) result piece.new }
        ensures kept { self.new.is_whole ≡ true
            → IfOk result (λ n. self.new.front ≡ self.old.front ++ take n piece.new) }
        ensures left { self.new.is_whole ≡ false → self.new.front ≡ self.old.front }
        ensures back { self.new.is_whole ≡ false → IfOk result (λ n. IsKeptBack (take n piece.new) self.new.back) }
        ensures failed { OnErr result (self.new.front ≡ self.old.front) }
    {
        let count = self.source.read(piece)?;
        self.keep(&piece[..count]);
        Ok(count)
    }
}
