//! The number of values that the queue may have held during failed enqueues.
ghost use Rattle.std.specs.Prelude.{◌≡◌, ◌+◌, ◌-◌, ◌<◌, ◌≤◌, ◌++◌, ◌^◌, ℕ, All, IfOk};
ghost use Rattle.std.specs.Prelude.{List, MatchOption, count_by, false, filter_map};
ghost use Rattle.std.specs.Prelude.{length, nat_lt, slice_index_or, take, true, vec_len};
ghost use Rattle.std.specs.List.{list_any};
ghost use Rattle.std.specs.List.Sorted.{IsNonDecreasing};
ghost use Rattle.event_records.specs.declared.limits.TheConstants.{MAX_EVENTS, MAX_INITIAL};
ghost use Rattle.history_stats.specs.FailedEnqueues.{IsRefusedAt, NoFailedEnqueue};
ghost use Rattle.history_stats.specs.FailedEnqueues.{left_count, values_called_before};
ghost use Rattle.history_stats.specs.Inner.AtOnce.{count_before};
ghost use Rattle.history_stats.specs.Inner.FailedEnqueues.{AreHeights, count_above, stays_within};
ghost use Rattle.history_stats.specs.Inner.FailedEnqueues.{there_at, window_of, windows_of};

use crate::at_once::{count_before, count_by};
use crate::counting::is_failed_enqueue;
use crate::moment::Moment;
use crate::queued::{add_enqueued, add_initial, first_dequeues};
use crate::tally::zeros;
use history_merge::{Operation, Operations};
use std::alloc::{AllocError, Global};

/// The number of values that may be in the queue just after the call of a failed enqueue, and the places of the
/// arrivals during it.
#[derive(Clone, Copy)]
pub(crate) struct Window {
    start: usize,
    from: usize,
    to: usize,
}

/// Returns the number that is printed as `refused-at`: the minimum, over the failed enqueues, of the maximum number of
/// values that may have been in the queue at one gap of the call.
///
/// Takes O(n log n) time for n operations and initial values, and memory in proportion to them.
pub(crate) fn refused_at(
    alloc: Global,
    initial: &[u64],
    operations: &Operations<'_>,
) -> Result<Option<usize>, AllocError>
    requires forward { All (λ o. o.call < o.ret) operations.now }
    requires few_initial { length initial.now ≤ MAX_INITIAL }
    requires few { length operations.now ≤ MAX_EVENTS }
    ensures { IfOk result (λ least. MatchOption least (NoFailedEnqueue operations.now)
        (IsRefusedAt operations.now
        (λ gap. left_count gap operations.now (initial.now ++ values_called_before gap operations.now)))) }
{
    let gone = first_dequeues(alloc, operations, Moment::Return)?;
    let mut arrivals = Vec::new(alloc);
    let mut departures = Vec::new(alloc);
    add_initial(&mut departures, initial, &gone)?;
    add_enqueued(
        &mut arrivals,
        &mut departures,
        operations,
        Moment::Call,
        &gone,
    )?;
    refused_at_among(alloc, initial.len(), arrivals, departures, operations)
}

/// Returns the minimum, over the failed enqueues, of the maximum number present at one gap of the call: `first` are
/// present from the beginning, one comes at each ticket of `arrivals`, and one leaves at each of `departures`.
fn refused_at_among(
    alloc: Global,
    first: usize,
    mut arrivals: Vec<u64>,
    mut departures: Vec<u64>,
    operations: &Operations<'_>,
) -> Result<Option<usize>, AllocError>
    requires forward { All (λ o. o.call < o.ret) operations.now }
    requires few { first + vec_len arrivals < 2 ^ 62 }
    ensures { IfOk result (λ least. MatchOption least (NoFailedEnqueue operations.now)
        (IsRefusedAt operations.now (there_at first arrivals.items departures.items))) }
{
    arrivals.sort_unstable();
    departures.sort_unstable();
    refused_at_in_order(alloc, first, &arrivals, &departures, operations)
}

/// Returns this minimum for sorted tickets.
fn refused_at_in_order(
    alloc: Global,
    first: usize,
    arrivals: &[u64],
    departures: &[u64],
    operations: &Operations<'_>,
) -> Result<Option<usize>, AllocError>
    requires forward { All (λ o. o.call < o.ret) operations.now }
    requires arrivals { IsNonDecreasing arrivals.now }
    requires departures { IsNonDecreasing departures.now }
    requires few { first + length arrivals.now < 2 ^ 62 }
    ensures { IfOk result (λ least. MatchOption least (NoFailedEnqueue operations.now)
        (IsRefusedAt operations.now (there_at first arrivals.now departures.now))) }
{
    let windows = windows_of(alloc, first, arrivals, departures, operations)?;
    if windows.is_empty() {
        return Ok(None);
    }
    let heights = heights_of(alloc, first, arrivals, departures)?;
    let mut above = zeros(alloc, heights.len() + 1)?;
    let last = first + arrivals.len();
    Ok(Some(least_within(&heights, &windows, &mut above, last)))
}

/// Returns the windows of the failed enqueues.
fn windows_of(
    alloc: Global,
    first: usize,
    arrivals: &[u64],
    departures: &[u64],
    operations: &Operations<'_>,
) -> Result<Vec<Window>, AllocError>
    requires arrivals { IsNonDecreasing arrivals.now }
    requires departures { IsNonDecreasing departures.now }
    requires few { first + length arrivals.now < 2 ^ 62 }
    ensures { IfOk result (λ windows. windows.items ≡ windows_of first arrivals.now departures.now operations.now) }
{
    let mut windows = Vec::new(alloc);
    for operation in operations.iter() {
        if is_failed_enqueue(operation.kind) {
            windows.push(window_of(first, arrivals, departures, operation))?;
        }
    }
    Ok(windows)
}

/// Returns the window of an operation.
fn window_of(first: usize, arrivals: &[u64], departures: &[u64], operation: Operation) -> Window
    requires arrivals { IsNonDecreasing arrivals.now }
    requires departures { IsNonDecreasing departures.now }
    requires few { first + length arrivals.now < 2 ^ 62 }
    ensures { result ≡ window_of first arrivals.now departures.now operation }
{
    let from = count_by(arrivals, operation.call);
    Window {
        start: (first + from).saturating_sub(count_by(departures, operation.call)),
        from,
        to: count_before(arrivals, operation.ret),
    }
}

/// Returns for each arrival the number present just after it.
fn heights_of(
    alloc: Global,
    first: usize,
    arrivals: &[u64],
    departures: &[u64],
) -> Result<Vec<usize>, AllocError>
    requires departures { IsNonDecreasing departures.now }
    requires few { first + length arrivals.now < 2 ^ 62 }
    ensures { IfOk result (λ heights. AreHeights first arrivals.now departures.now heights.items) }
{
    let mut heights = Vec::with_capacity(alloc, arrivals.len())?;
    for place in 0..arrivals.len() {
        let gone = count_by(departures, arrivals[place]);
        heights.push((first + (place + 1)).saturating_sub(gone))?;
    }
    Ok(heights)
}

/// Returns the least number that one of the windows never exceeds, by bisection. Some window never exceeds `last`.
///
/// Takes O(n log n) time for n heights and windows.
fn least_within(heights: &[usize], windows: &[Window], above: &mut [usize], last: usize) -> usize
    requires room { length above.old ≡ length heights.now + 1 }
    requires last { list_any (stays_within heights.now last) windows.now ≡ true }
    requires ends { All (λ w. (w.from ≤ length heights.now) × (w.to ≤ length heights.now)) windows.now }
    ensures within { list_any (stays_within heights.now result) windows.now ≡ true }
    ensures least { 0 < result → list_any (stays_within heights.now (result - 1)) windows.now ≡ false }
{
    let mut least = 0;
    let mut enough = last;
    while least < enough {
        let middle = least + (enough - least) / 2;
        if one_stays_within(heights, windows, above, middle) {
            enough = middle;
        } else {
            least = middle + 1;
        }
    }
    least
}

/// Returns whether one of the windows never exceeds `most`.
fn one_stays_within(heights: &[usize], windows: &[Window], above: &mut [usize], most: usize) -> bool
    requires room { length above.old ≡ length heights.now + 1 }
    requires ends { All (λ w. (w.from ≤ length heights.now) × (w.to ≤ length heights.now)) windows.now }
    ensures some { result ≡ list_any (stays_within heights.now most) windows.now }
    ensures room { length above.new ≡ length heights.now + 1 }
{
    count_above(heights, above, most);
    for window in windows {
        if stays_within(above, *window, most) {
            return true;
        }
    }
    false
}

/// Returns whether a window never exceeds `most`. `above` counts for each place the heights before it that do.
fn stays_within(above: &[usize], window: Window, most: usize) -> bool
    requires { (window.from < length above.now) × (window.to < length above.now) }
    ensures { (heights : List ℕ) → window.from ≤ length heights → window.to ≤ length heights
        → ((k : ℕ) → k ≤ length heights → slice_index_or above.now k 0 ≡ count_above most (take k heights))
        → result ≡ stays_within heights most window }
{
    window.start <= most && above[window.from] == above[window.to]
}

/// Counts for each place, and for the end, the heights before it that exceed `most`.
fn count_above(heights: &[usize], above: &mut [usize], most: usize)
    requires { length above.old ≡ length heights.now + 1 }
    ensures room { length above.new ≡ length heights.now + 1 }
    ensures counts { (k : ℕ) → k ≤ length heights.now
        → slice_index_or above.new k 0 ≡ count_above most (take k heights.now) }
{
    above[0] = 0;
    for place in 0..heights.len() {
        above[place + 1] = above[place] + usize::from(heights[place] > most);
    }
}
