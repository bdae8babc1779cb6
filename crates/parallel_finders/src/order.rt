ghost use Rattle.std.specs.Prelude.{◌≡◌, ◌≤◌, IfOk};
ghost use Rattle.order_violation.specs.Pairs.{IsOrderAnswer};
ghost use Rattle.parallel_finders.specs.declared.TheConstants.{MAX_PIECES};

use crate::MIN_ITEMS;
use crate::overtaking::first_overtaking_par;
use crate::sorting::sort_fronts;
use order_violation::{OrderPair, chosen_pair, find_order};
use std::alloc::{AllocError, Global};
use std::thread::Threads;
use value_match::{LongestTable, Matching, Values, fronts_of};

/// Returns what `find_order` returns, but searches in pieces that may run at once. Like `find_order` it is for
/// callers: `verdicts::decide_par` doesn't call it.
///
/// Each piece finds its own first-dequeued value that overtakes another; the one dequeued first counts, whichever
/// piece ends first. Few values are searched in one piece. If no thread can be started, the caller's thread does the
/// work. Time and memory are those of `find_order`. The only error is out of memory.
pub fn find_order_par<R: Threads + Sync>(
    rt: &R,
    alloc: Global,
    matching: &Matching,
    pieces: usize,
) -> Result<Option<OrderPair>, AllocError>
    requires { (1 ≤ pieces) × (pieces ≤ MAX_PIECES) }
    ensures { IfOk result (IsOrderAnswer matching.now.initial matching.now.operations) }
{
    if matching.values().len() < MIN_ITEMS {
        find_order(alloc, matching)
    } else {
        order_in_pieces(rt, alloc, matching, pieces)
    }
}

/// Returns what `find_order` returns, searching in this many pieces however few values there are.
pub fn order_in_pieces<R: Threads + Sync>(
    rt: &R,
    alloc: Global,
    matching: &Matching,
    pieces: usize,
) -> Result<Option<OrderPair>, AllocError>
    ensures { IfOk result (IsOrderAnswer matching.now.initial matching.now.operations) }
{
    let table = table_of(rt, alloc, matching.values())?;
    let first = first_overtaking_par(rt, &table, table.values(), pieces);
    Ok(chosen_pair(matching, first))
}

/// Returns the table of these values.
fn table_of<'a, R: Threads + Sync>(
    rt: &R,
    alloc: Global,
    values: Values<'a>,
) -> Result<LongestTable<'a>, AllocError>
    ensures { IfOk result (λ table. table ≡ values.entry) }
{
    let mut fronts = fronts_of(alloc, &values)?;
    sort_fronts(rt, &mut fronts);
    Ok(LongestTable::by_return(values, fronts))
}
