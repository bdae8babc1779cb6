ghost use Rattle.std.specs.Prelude.{◌++◌, ◌↔◌, IsTrue, List};
ghost use Rattle.value_match.specs.declared.life.MatchedValue.{MatchedValue};
ghost use Rattle.value_match.specs.Lives.{enqueue_call};
ghost use Rattle.value_match.specs.Fronts.{EntersBefore, FindsLongest};
ghost use Rattle.order_violation.specs.Pairs.{FindsFirst};
ghost use Rattle.value_match.specs.Violations.{Overtakes};

use value_match::{Life, LongestTable, MatchedValue, Values};

/// Returns whichever of two values is dequeued first, as far as they are given.
///
/// If each is the first that overtakes among some candidates, the result is the first among all of them.
pub fn first_of(first: Option<MatchedValue>, second: Option<MatchedValue>) -> Option<MatchedValue>
    ensures { (values xs ys : List MatchedValue) → FindsFirst values xs first → FindsFirst values ys second
        → FindsFirst values (xs ++ ys) result }
{
    match (first, second) {
        (None, found) => found,
        (Some(first), None) => Some(first),
        (Some(first), Some(second)) => {
            if first.life.dequeue_return() <= second.life.dequeue_return() {
                Some(first)
            } else {
                Some(second)
            }
        }
    }
}

/// Returns whether b was dequeued before a, though a was enqueued before b. The dequeues are compared first, since
/// they mostly decide.
#[inline(always)]
pub(crate) fn overtakes(b: &Life, a: &Life) -> bool
    ensures { IsTrue result ↔ Overtakes b.now a.now }
{
    b.dequeue_return() < a.dequeue_call() && a.enqueue_return() < b.enqueue_call()
}

/// Returns the longest of the values that entered before b, if b overtakes it. Otherwise b overtakes none.
#[inline(always)]
pub(crate) fn if_overtaken(b: &Life, longest: Option<MatchedValue>) -> Option<MatchedValue>
    ensures { (values : List MatchedValue) → FindsLongest (EntersBefore (enqueue_call b.now)) values longest
        → FindsLongest (Overtakes b.now) values result }
{
    let a = longest?;
    let left = b.dequeue_return();
    if left < a.life.dequeue_call() {
        Some(a)
    } else {
        None
    }
}

/// Returns the first-dequeued candidate that overtakes a value of the table.
///
/// Takes O(m log n) time for m candidates and n values.
pub fn first_overtaking(table: &LongestTable, candidates: &Values) -> Option<MatchedValue>
    ensures { FindsFirst table.now candidates.now result }
{
    let mut first: Option<MatchedValue> = None;
    for place in 0..candidates.len() {
        let b = candidates.get(place);
        let longest = table.longest_before(b.life.enqueue_call());
        if if_overtaken(&b.life, longest).is_some() {
            first = first_of(first, Some(b));
        }
    }
    first
}
