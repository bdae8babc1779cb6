ghost use Rattle.std.specs.Thread.{IsSync};
ghost use Rattle.order_violation.specs.Pairs.{FindsFirst};

use order_violation::{first_of, first_overtaking};
use std::thread::{Threads, join};
use value_match::{LongestTable, MatchedValue, Values};

/// Returns the first-dequeued candidate that overtakes a value of the table, searching in pieces.
#[cycle(halves)]
pub(crate) fn first_overtaking_par<R: Threads + Sync>(
    rt: &R,
    table: &LongestTable,
    candidates: &Values,
    pieces: usize,
) -> Option<MatchedValue>
    ensures { FindsFirst table.now candidates.now result }
{
    if pieces < 2 || candidates.len() < 2 {
        return first_overtaking(table, candidates);
    }
    let (low, high) = candidates.split_at(candidates.len() / 2);
    let some = pieces / 2;
    let others = pieces - some;
    let left = || -> Option<MatchedValue>
        requires { IsSync R.row }
        ensures { FindsFirst table.entry.now low.entry result }
    { first_overtaking_par(rt, table, &low, some) };
    let right = || -> Option<MatchedValue>
        requires { IsSync R.row }
        ensures { FindsFirst table.entry.now high.entry result }
    { first_overtaking_par(rt, table, &high, others) };
    let (first, second) = join(rt, left, right);
    first_of(first, second)
}
