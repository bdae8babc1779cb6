ghost use Rattle.std.specs.Prelude.{IsPermutation};
ghost use Rattle.std.specs.List.Sorted.{IsNonDecreasingBy};

use rayon::prelude::*;
use std::thread::Threads;
use value_match::{Front, presort};

/// Sorts by rising enqueue return: in one pass if each front is near its sorted place, otherwise in several threads.
pub(crate) fn sort_fronts<R: Threads + Sync>(rt: &R, fronts: &mut Vec<Front>)
    ensures permutation { IsPermutation fronts.old.items fronts.new.items }
    ensures rises { IsNonDecreasingBy (λ front. front.enqueue_return) fronts.new.items }
{
    presort(fronts, &|front: &Front| front.enqueue_return);
    if !fronts.is_sorted_by_key(|front: &Front| front.enqueue_return) {
        par_sort_unstable_by_key(
            rt,
            fronts.as_mut_slice(),
            |front: &Front| front.enqueue_return,
        );
    }
}
