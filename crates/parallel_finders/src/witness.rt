ghost use Rattle.std.specs.Prelude.{◌≤◌, IfOk};
ghost use Rattle.empty_witness.specs.Answers.{IsWitnessAnswer};
ghost use Rattle.parallel_finders.specs.declared.TheConstants.{MAX_PIECES};

use crate::MIN_ITEMS;
use crate::windows::windows_at_par;
use empty_witness::{WitnessAnswer, find_witness, spans_of, witness_of};
use std::alloc::{AllocError, Global};
use std::thread::Threads;
use value_match::Matching;

/// Returns what `find_witness` returns, but searches in pieces that may run at once.
///
/// Each piece finds the gaps of its empty dequeues, or its first-returned covered one; of the covered ones the one
/// that returned first counts, whichever piece ends first. Few empty dequeues, or any among few values, are searched
/// in one piece. If no thread can be started, the caller's thread does the work. Time and memory are those of
/// `find_witness`, and memory for the gaps of some pieces once more. The only error is out of memory.
pub fn find_witness_par<R: Threads + Sync>(
    rt: &R,
    alloc: Global,
    matching: &Matching,
    pieces: usize,
) -> Result<WitnessAnswer, AllocError>
    requires { (1 ≤ pieces) × (pieces ≤ MAX_PIECES) }
    ensures { IfOk result (IsWitnessAnswer matching.now.initial matching.now.operations) }
{
    if matching.values().len() < MIN_ITEMS || matching.empties().len() == 0 {
        return find_witness(alloc, matching);
    }
    let few = matching.empties().len() < MIN_ITEMS;
    witness_in_pieces(rt, alloc, matching, if few { 1 } else { pieces })
}

/// Returns what `find_witness` returns, searching in this many pieces however few values and empty dequeues there
/// are.
pub fn witness_in_pieces<R: Threads + Sync>(
    rt: &R,
    alloc: Global,
    matching: &Matching,
    pieces: usize,
) -> Result<WitnessAnswer, AllocError>
    ensures { IfOk result (IsWitnessAnswer matching.now.initial matching.now.operations) }
{
    let spans = spans_of(alloc, matching)?;
    let empties = matching.empties();
    let windows = windows_at_par(rt, alloc, matching, spans.as_slice(), &empties, pieces)?;
    witness_of(alloc, matching, windows)
}
