//! The number of operations that overlap another one.
ghost use Rattle.std.specs.Prelude.{◌≡◌, ◌<◌, ◌≤◌, ◌++◌, ◌∷◌, All, AllPairs, List, length, nat_le, nat_lt};
ghost use Rattle.std.specs.List.{list_any};
ghost use Rattle.history_merge.specs.declared.operation.Operation.{Operation};
ghost use Rattle.history_stats.specs.Counts.{overlap, overlapping_count, tenths_of_percent};
ghost use Rattle.event_records.specs.declared.limits.TheConstants.{MAX_EVENTS};
ghost use Rattle.history_stats.specs.Inner.AtOnce.{IsLastReturn};

use history_merge::{Operation, Operations};

/// Counts the operations that overlap another one.
///
/// Takes time in proportion to the operations, and no memory.
pub(crate) fn overlapping_count(operations: &Operations<'_>) -> usize
    requires calls_rise { AllPairs (λ x y. x.call < y.call) operations.now }
    requires forward { All (λ o. o.call < o.ret) operations.now }
    ensures exact { result ≡ overlapping_count operations.now }
    ensures part { result ≤ length operations.now }
{
    let all = operations.len();
    let mut count = 0;
    let mut last_return = 0;
    let mut later = operations.iter();
    while let Some(operation) = later.next() {
        let has_earlier = later.len() + 1 < all;
        if overlaps_another(operation, has_earlier, last_return, &later) {
            count += 1;
        }
        last_return = last_return.max(operation.ret);
    }
    count
}

/// Returns whether an operation overlaps one of those before it, whose last return is given, or one of those after
/// it.
fn overlaps_another(
    operation: Operation,
    has_earlier: bool,
    last_return: u64,
    later: &Operations<'_>,
) -> bool
    requires { AllPairs (λ x y. x.call < y.call) later.now }
    ensures { (earlier : List Operation) → AllPairs (λ x y. x.call < y.call) (earlier ++ operation ∷ later.now)
        → All (λ o. o.call < o.ret) (earlier ++ operation ∷ later.now)
        → has_earlier ≡ nat_lt 0 (length earlier) → IsLastReturn earlier last_return
        → result ≡ list_any (overlap operation) (earlier ++ operation ∷ later.now) }
{
    returns_from(has_earlier, last_return, operation.call) || is_called_by(later, operation.ret)
}

/// Returns whether one of some operations returns at `ticket` or later, given whether there are any and their last
/// return.
fn returns_from(are_any: bool, last_return: u64, ticket: u64) -> bool
    ensures { (operations : List Operation) → are_any ≡ nat_lt 0 (length operations)
        → IsLastReturn operations last_return
        → result ≡ list_any (λ o. nat_le ticket o.ret) operations }
{
    are_any && ticket <= last_return
}

/// Returns whether one of the operations is called by `ticket`.
fn is_called_by(operations: &Operations<'_>, ticket: u64) -> bool
    requires { AllPairs (λ x y. x.call < y.call) operations.now }
    ensures { result ≡ list_any (λ o. nat_le o.call ticket) operations.now }
{
    match operations.iter().next() {
        None => false,
        Some(first) => first.call <= ticket,
    }
}

/// Returns the tenths of a percent that a part is of the whole, rounded down.
pub(crate) fn tenths_of_percent(part: usize, whole: usize) -> usize
    requires { part ≤ MAX_EVENTS }
    ensures { result ≡ tenths_of_percent part whole }
{
    if whole == 0 {
        return 0;
    }
    part * 1000 / whole
}
