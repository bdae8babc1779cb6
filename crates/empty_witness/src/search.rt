ghost use Rattle.std.specs.Prelude.{◌≡◌, ◌≤◌, ◌++◌, ℕ, List, All, IfOk};
ghost use Rattle.event_records.specs.declared.limits.TheConstants.{ORIGIN};
ghost use Rattle.history_merge.specs.declared.operation.OpKind.TheVariants.{DequeueEmpty};
ghost use Rattle.history_merge.specs.Operations.{Did};
ghost use Rattle.value_match.specs.Lives.{course_of, timed};
ghost use Rattle.value_match.specs.Outcome.{IsOperation};
ghost use Rattle.empty_witness.specs.Answers.{AreAllWindows, AreWindowsAt, IsEmptyAnswerAt};
ghost use Rattle.empty_witness.specs.Answers.{IsFirstCovered, IsGapAnswer, IsSoonerOf, IsWitnessAnswer};
ghost use Rattle.empty_witness.specs.Spans.{AreSpansOf};

use crate::answer::{GapAnswer, Gaps, WitnessAnswer};
use crate::cover::cover_of;
use crate::gaps::least_free_gap;
use crate::spans::{Span, spans_of};
use history_merge::{OpId, Operation};
use std::alloc::{AllocError, Global};
use value_match::{Matching, Places};

/// An empty dequeue at its times, and its place in the history.
#[derive(Clone, Copy)]
pub struct EmptyAnswer {
    pub place: OpId,
    pub operation: Operation,
}

/// The result of searching the windows of some empty dequeues.
#[derive(Drop)]
pub enum WindowsAnswer {
    /// No window is covered: the tickets of the least free gaps, in the order of the empty dequeues.
    Free(Vec<u64>),
    /// The empty dequeue that returned first among those whose windows are covered.
    Covered(EmptyAnswer),
}

/// Returns the least free gap in the window of an empty dequeue, or the chosen cover of the window.
///
/// This is for callers who ask for one window: `verdicts::decide` judges all of them, by [`find_witness`].
///
/// Gap c is the time just after ticket c. The window of an operation has the gaps from its call to just before its
/// return. Places and tickets are those of the history, and a cover names initial values too. Takes O(n) time for n
/// values, whatever the width of the window, and sorts the values too if the window is covered. The only error is out
/// of memory.
pub fn gap_for(alloc: Global, matching: &Matching, empty: OpId) -> Result<GapAnswer, AllocError>
    requires { IsEmptyAnswerAt matching.now.operations empty }
    ensures { IfOk result (IsGapAnswer matching.now.initial matching.now.operations empty) }
{
    let answer = answer_at(matching, empty);
    let spans = spans_of(alloc, matching)?;
    match least_free_gap(spans.as_slice(), &answer.operation) {
        Some(gap) => Ok(GapAnswer::Free(gap)),
        None => Ok(GapAnswer::Covered(cover_of(alloc, matching, &answer.operation)?)),
    }
}

/// Returns the least free gap of each empty dequeue, in the order of their calls, or the chosen empty dequeue whose
/// window is covered, with its cover. Places and tickets are those of the history.
///
/// Takes O(n + m log n) time for n values and m empty dequeues: it joins the values' stays once, and looks each
/// window up among them. If a window is covered it sorts the values too; without empty dequeues it takes O(1). The
/// only error is out of memory.
pub fn find_witness(alloc: Global, matching: &Matching) -> Result<WitnessAnswer, AllocError>
    ensures { IfOk result (IsWitnessAnswer matching.now.initial matching.now.operations) }
{
    let empties = matching.empties();
    if empties.len() == 0 {
        return witness_of(alloc, matching, WindowsAnswer::Free(Vec::new(alloc)));
    }
    let spans = spans_of(alloc, matching)?;
    let windows = windows_at(alloc, matching, spans.as_slice(), &empties)?;
    witness_of(alloc, matching, windows)
}

/// Returns the result of `find_witness`, given what was found in the windows of all empty dequeues.
///
/// Takes O(n log n) time for n values if a window is covered, for its cover. The only error is out of memory.
pub fn witness_of(
    alloc: Global,
    matching: &Matching,
    windows: WindowsAnswer,
) -> Result<WitnessAnswer, AllocError>
    requires { AreAllWindows (course_of matching.now) windows }
    ensures { IfOk result (IsWitnessAnswer matching.now.initial matching.now.operations) }
{
    match windows {
        WindowsAnswer::Free(gaps) => Ok(WitnessAnswer::Gaps(Gaps::from_vec(gaps))),
        WindowsAnswer::Covered(first) => Ok(WitnessAnswer::Covered {
            empty: first.place,
            cover: cover_of(alloc, matching, &first.operation)?,
        }),
    }
}

/// Returns the empty dequeue at this place.
fn answer_at(matching: &Matching, empty: OpId) -> EmptyAnswer
    requires { IsEmptyAnswerAt matching.now.operations empty }
    ensures place { result.place ≡ empty }
    ensures at { IsOperation matching.now.operations empty result.operation }
    ensures is_empty { Did (timed matching.now.operations) result.operation DequeueEmpty }
    ensures late { ORIGIN ≤ result.operation.call }
{
    let operation = matching.operations().get(empty).unwrap();
    EmptyAnswer {
        place: empty,
        operation: operation.timed(),
    }
}

/// Returns whichever of two empty dequeues returned first.
pub fn sooner_of(first: EmptyAnswer, second: EmptyAnswer) -> EmptyAnswer
    ensures { IsSoonerOf first second result }
{
    if first.operation.ret <= second.operation.ret {
        first
    } else {
        second
    }
}

/// Searches the windows of the empty dequeues at these places, by the spans of the history. Each window is one
/// look-up.
///
/// Takes O(m log n) time for m places and n spans. The only error is out of memory.
pub fn windows_at(
    alloc: Global,
    matching: &Matching,
    spans: &[Span],
    empties: &Places,
) -> Result<WindowsAnswer, AllocError>
    requires empties { All (IsEmptyAnswerAt matching.now.operations) empties.now }
    requires spans { AreSpansOf (course_of matching.now) spans.now }
    ensures { IfOk result (λ windows. AreWindowsAt (course_of matching.now) empties.now windows) }
{
    let mut gaps = Vec::with_capacity(alloc, empties.len())?;
    for index in 0..empties.len() {
        let answer = answer_at(matching, empties.get(index));
        match least_free_gap(spans, &answer.operation) {
            Some(gap) => gaps.push(gap)?,
            None => {
                let (_, others) = empties.split_at(index + 1);
                return Ok(WindowsAnswer::Covered(first_covered(matching, spans, answer, &others)));
            }
        }
    }
    Ok(WindowsAnswer::Free(gaps))
}

/// Returns the empty dequeue that returned first among those whose windows are covered: `covered`, and some of the
/// others.
fn first_covered(
    matching: &Matching,
    spans: &[Span],
    covered: EmptyAnswer,
    others: &Places,
) -> EmptyAnswer
    requires others { All (IsEmptyAnswerAt matching.now.operations) others.now }
    requires spans { AreSpansOf (course_of matching.now) spans.now }
    ensures { (seen : List ℕ) → IsFirstCovered (course_of matching.now) seen covered
        → IsFirstCovered (course_of matching.now) (seen ++ others.now) result }
{
    let mut first = covered;
    for index in 0..others.len() {
        let answer = answer_at(matching, others.get(index));
        if least_free_gap(spans, &answer.operation).is_none() {
            first = sooner_of(first, answer);
        }
    }
    first
}
