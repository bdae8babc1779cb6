ghost use Rattle.std.specs.Prelude.{◌≡◌, ◌≤◌, IfOk};
ghost use Rattle.history_merge.specs.Operations.{operations_of};
ghost use Rattle.value_match.specs.Lives.{course_of};
ghost use Rattle.value_match.specs.Violations.{IsClear, NoOrderViolation};
ghost use Rattle.order_violation.specs.Pairs.{IsOrderAnswer};
ghost use Rattle.empty_witness.specs.Answers.{IsWitnessAnswer};
ghost use Rattle.parallel_finders.specs.declared.TheConstants.{MAX_PIECES};
ghost use Rattle.verdicts.specs.Decided.{IsDecided};

use claims::{Order, Verdict};
use empty_witness::WitnessAnswer;
use history_merge::History;
use linearizer::{OrderFound, OrderedValues, linearize, order_values};
use order_violation::{OrderPair, chosen_pair};
use parallel_finders::{InPieces, OnePiece, WitnessSearch};
use std::alloc::{AllocError, Global};
use std::thread::Threads;
use value_match::{Matched, Matching, Violation, match_values};

/// Decides whether a history is linearizable (Herlihy and Wing 1990) for a queue that holds the initial values first.
///
/// Returns `Yes` with the chosen linearization, or `No` with the chosen violation of the first kind that is present:
/// a phantom dequeue, a value dequeued twice, values dequeued against the order of their enqueues, an empty dequeue
/// while the queue was never empty. Both name operations and initial values by their own places, from 0. The four
/// kinds are this project's own. The only error is out of memory.
///
/// The `history` dequeues 7, which was never enqueued:
///
/// ```rust
/// let verdict = decide(alloc, &history)?;
/// assert!(rt; matches!(&verdict, Verdict::No(_)));
/// ```
pub fn decide(alloc: Global, history: &History) -> Result<Verdict, AllocError>
    ensures { IfOk result (IsDecided history.now.initial (operations_of history.now.events)) }
{
    decide_by(&OnePiece, alloc, history)
}

/// Returns what `decide` returns, but searches for a cover in pieces that may run at once.
///
/// The result doesn't depend on the number of pieces, nor on which thread ends first. A history of few operations is
/// searched in one piece and starts no thread. If no thread can be started, the caller's thread does the work. The
/// only error is out of memory.
pub fn decide_par<R: Threads + Sync>(
    rt: &R,
    alloc: Global,
    history: &History,
    pieces: usize,
) -> Result<Verdict, AllocError>
    requires { (1 ≤ pieces) × (pieces ≤ MAX_PIECES) }
    ensures { IfOk result (IsDecided history.now.initial (operations_of history.now.events)) }
{
    decide_by(&InPieces { rt, pieces }, alloc, history)
}

/// Returns what `decide` returns, with this search for a cover.
pub fn decide_by<S: WitnessSearch>(
    search: &S,
    alloc: Global,
    history: &History,
) -> Result<Verdict, AllocError>
    requires { S.is_ready search.now }
    ensures { IfOk result (IsDecided history.now.initial (operations_of history.now.events)) }
{
    match match_values(alloc, history)? {
        Matched::Clear(matching) => decide_matching(search, alloc, &matching),
        Matched::Fresh(violation) | Matched::Repeat(violation) => Ok(Verdict::No(violation)),
    }
}

/// Returns the verdict on a history without the first two kinds of violation. Ordering the values finds the
/// first-dequeued value that overtakes another, if there is one.
fn decide_matching<S: WitnessSearch>(
    search: &S,
    alloc: Global,
    matching: &Matching,
) -> Result<Verdict, AllocError>
    requires search { S.is_ready search.now }
    requires clear { IsClear (course_of matching.now) }
    ensures { IfOk result (IsDecided matching.now.initial matching.now.operations) }
{
    match order_values(alloc, matching)? {
        OrderFound::InOrder(values) => {
            let answer = search.find(alloc, matching)?;
            decide_in_order(alloc, matching, &values, answer)
        }
        OrderFound::Overtaker(value) => Ok(overtaken(matching, chosen_pair(matching, Some(value)))),
    }
}

/// Returns the verdict on a history without the first three kinds of violation, by the result of the search for a
/// cover.
fn decide_in_order(
    alloc: Global,
    matching: &Matching,
    values: &OrderedValues,
    answer: WitnessAnswer,
) -> Result<Verdict, AllocError>
    requires values { values.now ≡ matching.now }
    requires clear { IsClear (course_of matching.now) }
    requires in_order { NoOrderViolation (course_of matching.now) }
    requires answer { IsWitnessAnswer matching.now.initial matching.now.operations answer }
    ensures { IfOk result (IsDecided matching.now.initial matching.now.operations) }
{
    match answer {
        WitnessAnswer::Covered { empty, cover } => {
            Ok(Verdict::No(Violation::Witness { empty, cover }))
        }
        WitnessAnswer::Gaps(gaps) => {
            let places = linearize(alloc, matching, values, gaps.as_slice())?;
            Ok(Verdict::Yes(Order::from_vec(places)))
        }
    }
}

/// Returns the verdict on a history in which a pair of values is dequeued against the order of their enqueues: the
/// pair that was found.
fn overtaken(matching: &Matching, pair: Option<OrderPair>) -> Verdict
    requires clear { IsClear (course_of matching.now) }
    requires overtaken { ¬ (NoOrderViolation (course_of matching.now)) }
    requires answer { IsOrderAnswer matching.now.initial matching.now.operations pair }
    ensures { IsDecided matching.now.initial matching.now.operations result }
{
    Verdict::No(violation_of(pair.unwrap()))
}

/// Returns the violation that a pair of values shows.
fn violation_of(pair: OrderPair) -> Violation
    ensures { result ≡ Violation.Order pair.enq_a pair.enq_b pair.deq_b pair.deq_a }
{
    Violation::Order {
        enq_a: pair.enq_a,
        enq_b: pair.enq_b,
        deq_b: pair.deq_b,
        deq_a: pair.deq_a,
    }
}
