ghost use Rattle.std.specs.Prelude.{◌≤◌, All, IfOk, length, take};
ghost use Rattle.history_merge.specs.declared.operation.OpKind.TheVariants.{DequeueEmpty};
ghost use Rattle.history_merge.specs.Operations.{Did};
ghost use Rattle.value_match.specs.Lives.{course_of, IsCovered, dequeue_call, timed};
ghost use Rattle.empty_witness.specs.Inner.Spans.{NamesChosenCover};

use history_merge::Operation;
use std::alloc::{AllocError, Global};
use value_match::{Cover, CoverStep, LongestTable, Matching, Values};

/// Returns the chosen cover of a covered window.
///
/// Takes O(n log n) time for n values: it makes a table of those that may be in the queue at the window's call, and
/// looks a value up for each step.
pub(crate) fn cover_of(
    alloc: Global,
    matching: &Matching,
    answer: &Operation,
) -> Result<Cover, AllocError>
    requires is_empty { Did (timed matching.now.operations) answer.now DequeueEmpty }
    requires covered { IsCovered (course_of matching.now) answer.now }
    ensures { IfOk result (λ cover. NamesChosenCover matching.now.initial matching.now.operations answer.now cover) }
{
    let values = matching.values();
    let (_gone, others) = values.split_at(count_gone(&values, answer.call));
    let table = LongestTable::new(alloc, others)?;
    let mut steps = Vec::new(alloc);
    let mut frontier = answer.call;
    while frontier < answer.ret {
        let value = table.longest_before(frontier).unwrap();
        steps.push(CoverStep {
            source: value.source,
            dequeue: value.dequeue,
        })?;
        frontier = value.life.dequeue_call();
    }
    Ok(Cover::from_vec(steps))
}

/// Returns how many of the first values have had their dequeues called by this ticket.
fn count_gone(values: &Values, ticket: u64) -> usize
    ensures within { result ≤ length values.now }
    ensures gone { All (λ value. dequeue_call value.life ≤ ticket) (take result values.now) }
{
    let mut count = 0;
    while count < values.len() && values.get(count).life.dequeue_call() <= ticket {
        count += 1;
    }
    count
}
