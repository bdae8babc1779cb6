ghost use Rattle.std.specs.Prelude.{◌≡◌, IfOk, List, MatchOption};
ghost use Rattle.value_match.specs.declared.life.MatchedValue.{MatchedValue};
ghost use Rattle.value_match.specs.Lives.{course_of, dequeue_of};
ghost use Rattle.value_match.specs.Outcome.{HoldsValues, IsMaybeOperation};
ghost use Rattle.value_match.specs.Fronts.{FindsLongest, IsLongerOf};
ghost use Rattle.order_violation.specs.Pairs.{IsFirstFound, IsOrderAnswer, pair_of};
ghost use Rattle.value_match.specs.Violations.{IsClear, Overtakes};

use crate::overtaking::{first_overtaking, overtakes};
use crate::pair::OrderPair;
use history_merge::OpId;
use std::alloc::{AllocError, Global};
use value_match::{Life, LongestTable, MatchedValue, Matching};

/// Returns the chosen pair of values dequeued against the order of their enqueues, if there is one: the
/// first-dequeued value that overtakes another, and the longest-staying value that it overtakes.
///
/// This is for callers who ask for no more: `verdicts::decide` orders the values and doesn't call it. The kinds of
/// violation are this project's own. Takes O(n log n) time for n values, and two words of memory for each while it
/// runs. The only error is out of memory.
pub fn find_order(alloc: Global, matching: &Matching) -> Result<Option<OrderPair>, AllocError>
    ensures { IfOk result (IsOrderAnswer matching.now.initial matching.now.operations) }
{
    let table = LongestTable::new(alloc, matching.values())?;
    let first = first_overtaking(&table, table.values());
    Ok(chosen_pair(matching, first))
}

/// Returns the pair of the first-dequeued value that overtakes another, if there is one, and the longest-staying
/// value that it overtakes.
///
/// Takes O(n) time for n values, and no memory.
pub fn chosen_pair(matching: &Matching, first: Option<MatchedValue>) -> Option<OrderPair>
    requires { IsFirstFound matching.now first }
    ensures { IsOrderAnswer matching.now.initial matching.now.operations result }
{
    let b = first?;
    let a = longest_among(matching, &b.life, &b.dequeue)?;
    pair_of(a, b)
}

/// Returns the pair of two values, if the second is dequeued.
fn pair_of(a: MatchedValue, b: MatchedValue) -> Option<OrderPair>
    ensures { result ≡ pair_of a b }
{
    Some(OrderPair {
        enq_a: a.source,
        enq_b: b.source,
        deq_b: b.dequeue?,
        deq_a: a.dequeue,
    })
}

/// Returns the longest-staying value that b overtakes, if there is one. `dequeue` is the place of b's dequeue.
fn longest_among(matching: &Matching, b: &Life, dequeue: &Option<OpId>) -> Option<MatchedValue>
    requires { IsMaybeOperation matching.now.operations dequeue.now (dequeue_of b.now) }
    ensures { (values : List MatchedValue) × IsClear (course_of matching.now) × HoldsValues matching.now values
        × FindsLongest (Overtakes b.now) values result }
{
    let values = matching.values();
    let mut longest: Option<MatchedValue> = None;
    for place in 0..values.len() {
        // Most values are dequeued before b, as the places show without a look at the operations.
        if let Some(first) = values.get(place).dequeue
            && let Some(second) = dequeue
            && first.number() < second.number()
        {
            continue;
        }
        let a = values.get(place);
        if overtakes(b, &a.life) {
            longest = Some(longer_with(longest, a));
        }
    }
    longest
}

/// Returns whichever stays longer, the value so far, if there is one, or the other.
fn longer_with(longest: Option<MatchedValue>, other: MatchedValue) -> MatchedValue
    ensures { MatchOption longest (result ≡ other) (λ so_far. IsLongerOf so_far other result) }
{
    match longest {
        Some(so_far) => so_far.longer_of(other),
        None => other,
    }
}
