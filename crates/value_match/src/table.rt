ghost use Rattle.std.specs.Prelude.{◌≡◌, ◌<◌, ◌≤◌, ◌↔◌, IfOk, IfSome, IsTrue, MatchOption};
ghost use Rattle.std.specs.Prelude.{length, nat_lt, slice_index_or, true, false};
ghost use Rattle.std.specs.List.Sorted.{IsNonDecreasingBy, IsPartitionPoint};
ghost use Rattle.value_match.specs.Choice.{StaysAtLeast};
ghost use Rattle.value_match.specs.declared.life.MatchedValue.{MatchedValue};
ghost use Rattle.value_match.specs.Fronts.{AreEntriesOf, EntersBefore, FindsLongest};
ghost use Rattle.value_match.specs.Fronts.{HasFronts, IsByReturn, IsLongerOf, IsTableOf};

use crate::accepted::Values;
use crate::life::MatchedValue;
use crate::presorting::presort;
use std::alloc::{AllocError, Global};
use std::marker::Model;

/// A value's enqueue return and its place. In a table, the place of the longest-staying value up to it.
#[derive(Clone, Copy)]
pub struct Front {
    pub enqueue_return: u64,
    pub place: usize,
}

/// Values that are searched for the one that stays longest among those that entered before some time. Seen as the
/// list of the values.
///
/// Borrows the values, and holds two words for each.
#[derive(Drop)]
pub struct LongestTable<'a> {
    values: Values<'a>,
    fronts: Vec<Front>,
}

impl<'a> Model for LongestTable<'a> {
    ghost use Rattle.std.specs.Prelude.{List};
    ghost use Rattle.value_match.specs.declared.life.MatchedValue.{MatchedValue};
    ghost use Rattle.value_match.specs.Fronts.{IsTableOf};

    ghost Value = { List MatchedValue };

    ghost view = { λ t. t.values };

    ghost invariant = { λ t. IsTableOf t.values t.fronts.items };
}

impl<'a> LongestTable<'a> {
    /// Makes the table of these values, in any order.
    ///
    /// Takes O(n log n) time for n values, and little more than one pass if their enqueues return nearly in the order
    /// of the list. The only error is out of memory.
    pub fn new(alloc: Global, values: Values<'a>) -> Result<LongestTable<'a>, AllocError>
        ensures { IfOk result (λ table. table ≡ values.entry) }
    {
        let mut fronts = fronts_of(alloc, &values)?;
        presort(&mut fronts, &|front: &Front| front.enqueue_return);
        fronts.sort_unstable_by_key(|front| front.enqueue_return);
        Ok(LongestTable::by_return(values, fronts))
    }

    /// Makes the table of values whose enqueue returns come sorted.
    ///
    /// Takes O(n) time for n values, and no memory.
    pub fn by_return(values: Values<'a>, fronts: Vec<Front>) -> LongestTable<'a>
        requires { IsByReturn values fronts.items }
        ensures { result ≡ values.entry }
    {
        let mut longest = fronts;
        name_longest(&values, longest.as_mut_slice());
        LongestTable {
            values,
            fronts: longest,
        }
    }

    /// Returns the values, in the order in which they were given.
    pub fn values(&self) -> &Values<'a>
        ensures { result.now ≡ self.now }
    {
        &self.values
    }

    /// Returns the value that stays longest among those whose enqueue returned before `limit`, if there is one.
    ///
    /// Takes O(log n) time for n values.
    pub fn longest_before(&self, limit: u64) -> Option<MatchedValue>
        ensures { FindsLongest (EntersBefore limit) self.now result }
    {
        let fronts = self.fronts.as_slice();
        let last = count_before(fronts, limit).checked_sub(1)?;
        Some(self.values.get(fronts[last].place))
    }
}

/// Returns the number of values whose enqueue returned before `limit`.
fn count_before(fronts: &[Front], limit: u64) -> usize
    requires { IsNonDecreasingBy (λ front. front.enqueue_return) fronts.now }
    ensures within { result ≤ length fronts.now }
    ensures cut { IsPartitionPoint (λ front. nat_lt front.enqueue_return limit ≡ true)
        (λ front. nat_lt front.enqueue_return limit ≡ false) fronts.now result }
{
    fronts.partition_point(|front| front.enqueue_return < limit)
}

/// Returns the enqueue returns and places of the values, in the order of the values.
///
/// Takes O(n) time for n values. The only error is out of memory.
pub fn fronts_of(alloc: Global, values: &Values) -> Result<Vec<Front>, AllocError>
    ensures { IfOk result (λ fronts. AreEntriesOf values.now fronts.items) }
{
    let mut fronts = Vec::with_capacity(alloc, values.len())?;
    for place in 0..values.len() {
        let value = values.get(place);
        fronts.push(Front {
            enqueue_return: value.life.enqueue_return(),
            place,
        })?;
    }
    Ok(fronts)
}

/// Replaces the place of each value by that of the longest-staying value up to it.
fn name_longest(values: &Values, fronts: &mut [Front])
    requires { IsByReturn values.now fronts.old }
    ensures { HasFronts values.now fronts.old fronts.new }
{
    let mut so_far = None;
    for front in fronts.iter_mut() {
        let longest = longer_place(values, so_far, front.place);
        front.place = longest;
        so_far = Some(longest);
    }
}

/// Returns the place of the value that stays longer: that at `place`, or that at `so_far`, if given.
fn longer_place(values: &Values, so_far: Option<usize>, place: usize) -> usize
    requires so_far { IfSome so_far (λ p. p < length values.now) }
    requires place { place < length values.now }
    ensures within { result < length values.now }
    ensures longer { (d : MatchedValue) → MatchOption so_far (result ≡ place)
        (λ p. IsLongerOf (slice_index_or values.now p d) (slice_index_or values.now place d)
        (slice_index_or values.now result d)) }
{
    match so_far {
        Some(longest) if stays_at_least(values, longest, place) => longest,
        _ => place,
    }
}

/// Returns whether the value at `place` stays as long as that at `other`.
#[inline(always)]
fn stays_at_least(values: &Values, place: usize, other: usize) -> bool
    requires place { place < length values.now }
    requires other { other < length values.now }
    ensures { (d : MatchedValue) → IsTrue result
        ↔ StaysAtLeast (slice_index_or values.now place d).life (slice_index_or values.now other d).life }
{
    let value = values.get(place);
    let other = values.get(other);
    value.life.stays_at_least(&other.life)
}
