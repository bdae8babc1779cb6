ghost use Rattle.std.specs.Prelude.{◌≡◌, ◌<◌, ◌≤◌, IfOk, length};
ghost use Rattle.text_lines.specs.Input.{EndOfInput, Exactly, Failure, ReadGives};

use crate::source::{ReadFailed, TextSource};
use std::marker::Model;

/// A source over bytes in memory, which gives all of them and then ends or fails. Contracts see the bytes that are
/// left.
#[derive(Drop)]
pub struct MemorySource<'a> {
    bytes: &'a [u8],
    most: usize,
    fails: bool,
}

impl<'a> Model for MemorySource<'a> {
    ghost use Rattle.std.specs.Prelude.{◌<◌, if◌then◌else◌};
    ghost use Rattle.text_lines.specs.Input.{Ahead, EndOfInput, Failure};
    ghost use Rattle.text_lines.specs.Pieces.{Pieces};

    ghost Value = { Pieces };

    ghost view = { λ s. record {
      ahead = record { bytes = s.bytes.now; ending = if s.fails then Failure else EndOfInput };
      most = s.most;
    } };

    ghost invariant = { λ s. 0 < s.most };
}

impl<'a> MemorySource<'a> {
    /// Makes a source that gives the bytes in pieces as large as a read asks for, and then ends.
    pub fn new(bytes: &'a [u8]) -> Self
        ensures { result ≡ record { ahead = record { bytes = bytes.now; ending = EndOfInput }; most = usize.MAX } }
    {
        MemorySource {
            bytes,
            most: usize::MAX,
            fails: false,
        }
    }

    /// Makes a source that gives the bytes in pieces as large as a read asks for, and then fails at each read.
    pub fn failing(bytes: &'a [u8]) -> Self
        ensures { result ≡ record { ahead = record { bytes = bytes.now; ending = Failure }; most = usize.MAX } }
    {
        let mut source = MemorySource::new(bytes);
        source.fails = true;
        source
    }

    /// Limits each read of the source to `most` bytes.
    pub fn in_pieces(mut self, most: usize) -> Self
        requires { 0 < most }
        ensures { result ≡ record { ahead = self.entry.ahead; most = most } }
    {
        self.most = most;
        self
    }
}

impl<'a> TextSource for MemorySource<'a> {
    ghost ahead = { λ s. Exactly s.ahead };

    #[tactic(auto, using(crate::proofs::Consuming::exactly))]
    fn read(&mut self, piece: &mut [u8]) -> Result<usize, ReadFailed>
        ensures bound { IfOk result (λ n. n ≤ length piece.new) }
        ensures bytes { ReadGives (Exactly self.old.ahead) (Exactly self.new.ahead) result piece.new }
        ensures few { IfOk result (λ n. n ≤ self.old.most) }
        ensures most { self.new.most ≡ self.old.most }
    {
        let count = piece.len().min(self.bytes.len()).min(self.most);
        if count == 0 {
            if self.fails && !piece.is_empty() {
                return Err(ReadFailed);
            }
            return Ok(0);
        }
        let (front, rest) = self.bytes.split_at(count);
        piece[..count].copy_from_slice(front);
        self.bytes = rest;
        Ok(count)
    }
}
