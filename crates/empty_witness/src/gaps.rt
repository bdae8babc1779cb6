ghost use Rattle.std.specs.Prelude.{◌≤◌, MatchOption};
ghost use Rattle.event_records.specs.declared.limits.TheConstants.{ORIGIN};
ghost use Rattle.history_merge.specs.Initial.{Contents};
ghost use Rattle.value_match.specs.Lives.{course_of, IsCovered, IsLeastFreeGap};
ghost use Rattle.value_match.specs.Times.{time_of};
ghost use Rattle.empty_witness.specs.Spans.{AreApart, AreSpansOf};
ghost use Rattle.empty_witness.specs.Inner.Spans.{IsFirstOutside};

use crate::spans::Span;
use event_records::ORIGIN;
use history_merge::Operation;

/// Returns the least gap, from `from` on, that lies in no span.
fn first_outside(spans: &[Span], from: u64) -> u64
    requires { AreApart spans.now }
    ensures { IsFirstOutside spans.now from result }
{
    let begun = spans.partition_point(|span| span.start <= from);
    if begun == 0 {
        from
    } else {
        spans[begun - 1].end.max(from)
    }
}

/// Returns the ticket of the least free gap in the window of an operation, if there is one, by the spans of the
/// history.
pub(crate) fn least_free_gap(spans: &[Span], answer: &Operation) -> Option<u64>
    requires apart { AreApart spans.now }
    requires late { ORIGIN ≤ answer.now.call }
    ensures { (history : Contents) → AreSpansOf (course_of history) spans.now
        → MatchOption result (IsCovered (course_of history) answer.now)
        (λ gap. IsLeastFreeGap (course_of history) answer.now (time_of gap)) }
{
    let gap = first_outside(spans, answer.call);
    (gap < answer.ret).then_some(gap - ORIGIN)
}
