ghost use Rattle.std.specs.Prelude.{◌≡◌, ◌++◌, All, IfOk};
ghost use Rattle.std.specs.Thread.{IsSync};
ghost use Rattle.value_match.specs.Lives.{course_of};
ghost use Rattle.empty_witness.specs.Answers.{AreWindowsAt, IsEmptyAnswerAt};
ghost use Rattle.empty_witness.specs.Spans.{AreSpansOf};
ghost use Rattle.empty_witness.specs.declared.search.WindowsAnswer.TheVariants.{Free, Covered};
ghost use Rattle.parallel_finders.specs.Inner.Together.{AreTogether};

use empty_witness::{EmptyAnswer, Span, WindowsAnswer, sooner_of, windows_at};
use std::alloc::{AllocError, Global};
use std::thread::{Threads, join};
use value_match::{Matching, Places};

/// Searches the windows of the empty dequeues at these places, in pieces.
#[cycle(halves)]
pub(crate) fn windows_at_par<R: Threads + Sync>(
    rt: &R,
    alloc: Global,
    matching: &Matching,
    spans: &[Span],
    empties: &Places,
    pieces: usize,
) -> Result<WindowsAnswer, AllocError>
    requires empties { All (IsEmptyAnswerAt matching.now.operations) empties.now }
    requires spans { AreSpansOf (course_of matching.now) spans.now }
    ensures { IfOk result (λ windows. AreWindowsAt (course_of matching.now) empties.now windows) }
{
    if pieces < 2 || empties.len() < 2 {
        return windows_at(alloc, matching, spans, empties);
    }
    let (low, high) = empties.split_at(empties.len() / 2);
    let some = pieces / 2;
    let others = pieces - some;
    let left = || -> Result<WindowsAnswer, AllocError>
        requires { IsSync R.row × All (IsEmptyAnswerAt matching.now.operations) low
            × AreSpansOf (course_of matching.now) spans.now }
        ensures { IfOk result (λ windows. AreWindowsAt (course_of matching.entry.now) low.entry windows) }
    { windows_at_par(rt, alloc, matching, spans, &low, some) };
    let right = || -> Result<WindowsAnswer, AllocError>
        requires { IsSync R.row × All (IsEmptyAnswerAt matching.now.operations) high
            × AreSpansOf (course_of matching.now) spans.now }
        ensures { IfOk result (λ windows. AreWindowsAt (course_of matching.entry.now) high.entry windows) }
    { windows_at_par(rt, alloc, matching, spans, &high, others) };
    let (first, second) = join(rt, left, right);
    windows_of_both(first?, second?)
}

/// Returns what was found in the windows of two pieces together.
fn windows_of_both(low: WindowsAnswer, high: WindowsAnswer) -> Result<WindowsAnswer, AllocError>
    ensures { IfOk result (λ windows. AreTogether low high windows) }
{
    match low {
        WindowsAnswer::Free(gaps) => after_gaps(gaps, high),
        WindowsAnswer::Covered(first) => Ok(WindowsAnswer::Covered(sooner_covered(first, &high))),
    }
}

/// Returns what was found in two pieces, the first of which has these gaps.
fn after_gaps(gaps: Vec<u64>, high: WindowsAnswer) -> Result<WindowsAnswer, AllocError>
    ensures { IfOk result (λ windows. AreTogether (Free gaps) high windows) }
{
    match high {
        WindowsAnswer::Free(more) => Ok(WindowsAnswer::Free(gaps_of_both(gaps, more.as_slice())?)),
        WindowsAnswer::Covered(first) => Ok(WindowsAnswer::Covered(first)),
    }
}

/// Returns the gaps of two pieces, in the order of the pieces.
fn gaps_of_both(low: Vec<u64>, high: &[u64]) -> Result<Vec<u64>, AllocError>
    ensures { IfOk result (λ gaps. gaps.items ≡ low.items ++ high.now) }
{
    let mut gaps = low;
    gaps.extend_from_slice(high)?;
    Ok(gaps)
}

/// Returns whichever returned first, the first piece's covered dequeue or the second piece's, if it has one.
fn sooner_covered(first: EmptyAnswer, high: &WindowsAnswer) -> EmptyAnswer
    ensures { AreTogether (Covered first) high.now (Covered result) }
{
    match high {
        WindowsAnswer::Free(_) => first,
        WindowsAnswer::Covered(second) => sooner_of(first, *second),
    }
}
