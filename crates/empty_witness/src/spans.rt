ghost use Rattle.std.specs.Prelude.{◌≡◌, ◌<◌, IfOk, OnOk};
ghost use Rattle.value_match.specs.Lives.{course_of};
ghost use Rattle.empty_witness.specs.Spans.{AreApart, AreSpansOf, stay_of};
ghost use Rattle.empty_witness.specs.Inner.Spans.{IsOfBoth, IsWithSpan};

use std::alloc::{AllocError, Global};
use value_match::{Life, Matching};

/// The gaps from `start` to just before `end`.
#[derive(Clone, Copy)]
pub struct Span {
    pub start: u64,
    pub end: u64,
}

/// Returns the spans of the gaps at which some value is definitely in the queue, by rising start. No two touch.
///
/// Takes O(n) time for n values, and memory for the spans alone. The only error is out of memory.
pub fn spans_of(alloc: Global, matching: &Matching) -> Result<Vec<Span>, AllocError>
    ensures { IfOk result (λ spans. AreSpansOf (course_of matching.now) spans.items) }
{
    let values = matching.values();
    let mut spans = Vec::new(alloc);
    for place in 0..values.len() {
        let stay = stay_of(&values.get(place).life);
        if stay.start < stay.end {
            add_stay(&mut spans, stay)?;
        }
    }
    Ok(spans)
}

/// Returns the gaps at which the value is definitely in the queue.
fn stay_of(life: &Life) -> Span
    ensures { result ≡ stay_of life.now }
{
    Span {
        start: life.enqueue_return(),
        end: life.dequeue_call(),
    }
}

/// Adds the stay of a value to spans that are apart. Mostly the stay begins within the last span, or where that ends.
#[inline(always)]
fn add_stay(spans: &mut Vec<Span>, stay: Span) -> Result<(), AllocError>
    requires apart { AreApart spans.old.items }
    requires holds_some { stay.start < stay.end }
    ensures { OnOk result (IsWithSpan spans.old.items stay spans.new.items) }
{
    if let Some(last) = spans.len().checked_sub(1)
        && spans[last].start <= stay.start
        && stay.start <= spans[last].end
    {
        spans[last].end = spans[last].end.max(stay.end);
        return Ok(());
    }
    add_span(spans, stay)
}

/// Adds a span to spans that are apart, and joins it with those that it touches or overlaps.
///
/// It calls itself for each later span. There are no more of these than enqueues were pending at once.
#[inline(never)]
#[cycle(spans)]
fn add_span(spans: &mut Vec<Span>, span: Span) -> Result<(), AllocError>
    requires apart { AreApart spans.old.items }
    requires holds_some { span.start < span.end }
    ensures { OnOk result (IsWithSpan spans.old.items span spans.new.items) }
{
    let Some(last) = spans.pop() else {
        spans.push(span)?;
        return Ok(());
    };
    if last.end < span.start {
        spans.push(last)?;
        spans.push(span)?;
        return Ok(());
    }
    if span.end < last.start {
        add_span(spans, span)?;
        spans.push(last)?;
        return Ok(());
    }
    add_span(spans, joined(last, span))
}

/// Returns the span of two that touch or overlap.
fn joined(one: Span, other: Span) -> Span
    ensures { IsOfBoth one other result }
{
    Span {
        start: one.start.min(other.start),
        end: one.end.max(other.end),
    }
}
