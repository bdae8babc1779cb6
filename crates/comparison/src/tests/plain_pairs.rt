//! Values that overtake others, found by a scan of all pairs.

use order_violation::OrderPair;
use value_match::MatchedValue;

/// Two values, of which the second may overtake the first.
type Pair = (MatchedValue, MatchedValue);

/// Returns whether `b` overtakes `a`.
fn overtakes(a: &MatchedValue, b: &MatchedValue) -> bool {
    a.life.enqueue_return() < b.life.enqueue_call()
        && b.dequeue.is_some()
        && b.life.dequeue_return() < a.life.dequeue_call()
}

/// Returns whether the first pair is chosen before the second: by the dequeue of b, then by that of a, then by the
/// enqueue of a.
fn is_before(pair: &Pair, other: &Pair) -> bool {
    let left = pair.1.life.dequeue_return();
    let other_left = other.1.life.dequeue_return();
    let stays = pair.0.life.dequeue_call();
    let other_stays = other.0.life.dequeue_call();
    left < other_left
        || (left == other_left
            && (other_stays < stays
                || (stays == other_stays
                    && pair.0.life.enqueue_return() < other.0.life.enqueue_return())))
}

/// Returns the chosen one of two pairs.
fn chosen_of(so_far: Option<Pair>, pair: Pair) -> Pair {
    match so_far {
        Some(other) if !is_before(&pair, &other) => other,
        _ => pair,
    }
}

/// Returns the chosen pair, found by a scan of all pairs.
pub(crate) fn plain_pair(values: &[MatchedValue]) -> Option<OrderPair> {
    let mut chosen: Option<Pair> = None;
    for a in values {
        for b in values {
            if overtakes(a, b) {
                chosen = Some(chosen_of(chosen, (*a, *b)));
            }
        }
    }
    let (a, b) = chosen?;
    Some(OrderPair {
        enq_a: a.source,
        enq_b: b.source,
        deq_b: b.dequeue?,
        deq_a: a.dequeue,
    })
}
