ghost use Rattle.std.specs.Prelude.{◌≤◌, ⊤, IfOk};
ghost use Rattle.std.specs.Thread.{IsSync};
ghost use Rattle.empty_witness.specs.Answers.{IsWitnessAnswer};
ghost use Rattle.parallel_finders.specs.declared.TheConstants.{MAX_PIECES};

use crate::witness::find_witness_par;
use empty_witness::{WitnessAnswer, find_witness};
use std::alloc::{AllocError, Global};
use std::thread::Threads;
use value_match::Matching;

/// A search for covered empty dequeues, in one piece or in several. `is_ready` holds of searches that can be made.
pub trait WitnessSearch {
    ghost is_ready: { Self → Type 0 };

    /// Returns what `find_witness` returns.
    fn find(&self, alloc: Global, matching: &Matching) -> Result<WitnessAnswer, AllocError>
        requires { is_ready self.now }
        ensures { IfOk result (IsWitnessAnswer matching.now.initial matching.now.operations) };
}

/// The search in one piece, by [`find_witness`]. It starts no thread.
#[derive(Drop)]
pub struct OnePiece;

impl WitnessSearch for OnePiece {
    ghost is_ready = { λ _. ⊤ };

    fn find(&self, alloc: Global, matching: &Matching) -> Result<WitnessAnswer, AllocError> {
        find_witness(alloc, matching)
    }
}

/// The search in pieces that may run at once, by [`find_witness_par`].
#[derive(Drop)]
pub struct InPieces<'a, R> {
    pub rt: &'a R,
    /// The number of pieces, from 1 to [`MAX_PIECES`].
    pub pieces: usize,
}

impl<'a, R: Threads + Sync> WitnessSearch for InPieces<'a, R> {
    ghost is_ready = { λ search. IsSync R.row × (1 ≤ search.pieces) × (search.pieces ≤ MAX_PIECES) };

    fn find(&self, alloc: Global, matching: &Matching) -> Result<WitnessAnswer, AllocError> {
        find_witness_par(self.rt, alloc, matching, self.pieces)
    }
}
