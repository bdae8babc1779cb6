//! Numbers counted in blocks, so that those below a given one are counted in a few steps.
ghost use Rattle.std.specs.Prelude.{◌≡◌, ◌+◌, ◌<◌, ◌≤◌, ◌++◌, ◌∷◌, ◌^◌, [], ℕ, IfOk, List};
ghost use Rattle.std.specs.Prelude.{count_by, length, nat_lt, replicate, slice_index_or, slice_set};
ghost use Rattle.history_stats.specs.Inner.Tally.{HasRoomFor, IsTally};

use std::alloc::{AllocError, Global};
use std::marker::Model;

/// Returns this many zeros.
pub(crate) fn zeros(alloc: Global, count: usize) -> Result<Vec<usize>, AllocError>
    ensures { IfOk result (λ zeros. zeros.items ≡ replicate count 0) }
{
    let mut zeros = Vec::with_capacity(alloc, count)?;
    for _place in 0..count {
        zeros.push(0)?;
    }
    Ok(zeros)
}

/// The counts of the blocks of one size, seen as the list of them.
#[derive(Drop)]
struct Level {
    counts: Vec<usize>,
}

impl Model for Level {
    ghost use Rattle.std.specs.Prelude.{ℕ, List};

    ghost Value = { List ℕ };

    ghost view = { λ l. l.counts.items };
}

impl Level {
    /// Makes a level of this many blocks, each with the count 0.
    fn new(alloc: Global, blocks: usize) -> Result<Level, AllocError>
        ensures { IfOk result (λ level. level ≡ replicate blocks 0) }
    {
        Ok(Level {
            counts: zeros(alloc, blocks)?,
        })
    }

    /// Returns the count of a block.
    fn count(&self, block: usize) -> usize
        requires { block < length self.now }
        ensures { result ≡ slice_index_or self.now block 0 }
    {
        self.counts[block]
    }

    /// Adds one to the count of a block.
    fn add_one(&mut self, block: usize)
        requires within { block < length self.old }
        requires few { slice_index_or self.old block 0 < 2 ^ 63 }
        ensures { self.new ≡ slice_set self.old block (slice_index_or self.old block 0 + 1) }
    {
        self.counts[block] += 1;
    }
}

/// Numbers up to a limit, counted in blocks of 1, 2, 4, .. numbers: level k counts those in each block of `2^k`.
///
/// Adding a number, and counting those below a given one, take O(log n) time for the limit n.
#[derive(Drop)]
pub(crate) struct Tally {
    levels: Vec<Level>,
}

impl Tally {
    /// Makes a tally of no numbers. Takes memory in proportion to the limit.
    pub(crate) fn new(alloc: Global, limit: usize) -> Result<Tally, AllocError>
        requires { limit < 2 ^ 62 }
        ensures { IfOk result (λ tally. IsTally limit [] tally.levels.items) }
    {
        let mut levels = Vec::new(alloc);
        let mut last_block = limit;
        while last_block > 0 {
            levels.push(Level::new(alloc, last_block + 1)?)?;
            last_block /= 2;
        }
        Ok(Tally { levels })
    }

    /// Adds a number.
    pub(crate) fn add(&mut self, number: usize)
        requires { HasRoomFor number self.old.levels.items }
        ensures { (limit : ℕ) (numbers : List ℕ) → number ≤ limit → IsTally limit numbers self.old.levels.items
            → IsTally limit (numbers ++ number ∷ []) self.new.levels.items }
    {
        let mut block = number;
        for level in 0..self.levels.len() {
            self.levels[level].add_one(block);
            block /= 2;
        }
    }

    /// Counts the numbers below this one.
    pub(crate) fn count_below(&self, number: usize) -> usize
        requires { HasRoomFor number self.now.levels.items }
        ensures { (limit : ℕ) (numbers : List ℕ) → number ≤ limit → IsTally limit numbers self.now.levels.items
            → result ≡ count_by (λ x. nat_lt x number) numbers }
    {
        let mut below = 0;
        let mut block = number;
        for level in 0..self.levels.len() {
            if block % 2 == 1 {
                below += self.levels[level].count(block - 1);
            }
            block /= 2;
        }
        below
    }
}
