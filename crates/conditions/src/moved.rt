//! A verdict on a selection, by the places of the whole history.
ghost use Rattle.std.specs.Prelude.{◌≡◌, IfOk, map, option_map};
ghost use Rattle.conditions.specs.Inner.Moved.{moved_place, moved_source, moved_step, moved_verdict, moved_violation};

use history_merge::OpId;
use std::alloc::{AllocError, Global};
use value_match::{Cover, CoverStep, Source, Violation};
use verdicts::{Order, Verdict};

/// Returns the entry of `places` at this place, or the place itself past their end.
#[inline(always)]
fn moved_place(places: &[OpId], place: OpId) -> OpId
    ensures { result ≡ moved_place places.now place }
{
    match places.get(place.place()) {
        Some(moved) => *moved,
        None => place,
    }
}

fn moved_maybe(places: &[OpId], place: Option<OpId>) -> Option<OpId>
    ensures { result ≡ option_map (moved_place places.now) place }
{
    match place {
        Some(place) => Some(moved_place(places, place)),
        None => None,
    }
}

fn moved_source(places: &[OpId], source: Source) -> Source
    ensures { result ≡ moved_source places.now source }
{
    match source {
        Source::Enq(place) => Source::Enq(moved_place(places, place)),
        Source::Initial(place) => Source::Initial(place),
    }
}

fn moved_step(places: &[OpId], step: CoverStep) -> CoverStep
    ensures { result ≡ moved_step places.now step }
{
    CoverStep {
        source: moved_source(places, step.source),
        dequeue: moved_maybe(places, step.dequeue),
    }
}

fn moved_steps(
    alloc: Global,
    places: &[OpId],
    steps: &[CoverStep],
) -> Result<Vec<CoverStep>, AllocError>
    ensures { IfOk result (λ moved. moved.items ≡ map (moved_step places.now) steps.now) }
{
    let mut moved = Vec::with_capacity(alloc, steps.len())?;
    for step in steps {
        moved.push(moved_step(places, *step))?;
    }
    Ok(moved)
}

fn moved_order(alloc: Global, places: &[OpId], order: &[OpId]) -> Result<Vec<OpId>, AllocError>
    ensures { IfOk result (λ moved. moved.items ≡ map (moved_place places.now) order.now) }
{
    let mut moved = Vec::with_capacity(alloc, order.len())?;
    for place in order {
        moved.push(moved_place(places, *place))?;
    }
    Ok(moved)
}

fn moved_violation(
    alloc: Global,
    places: &[OpId],
    violation: &Violation,
) -> Result<Violation, AllocError>
    ensures { IfOk result (λ moved. moved ≡ moved_violation places.now violation.now) }
{
    match violation {
        Violation::Fresh { deq, enq } => Ok(Violation::Fresh {
            deq: moved_place(places, *deq),
            enq: moved_maybe(places, *enq),
        }),
        Violation::Repeat { enq, first, second } => Ok(Violation::Repeat {
            enq: moved_source(places, *enq),
            first: moved_place(places, *first),
            second: moved_place(places, *second),
        }),
        Violation::Order {
            enq_a,
            enq_b,
            deq_b,
            deq_a,
        } => Ok(Violation::Order {
            enq_a: moved_source(places, *enq_a),
            enq_b: moved_source(places, *enq_b),
            deq_b: moved_place(places, *deq_b),
            deq_a: moved_maybe(places, *deq_a),
        }),
        Violation::Witness { empty, cover } => {
            let steps = moved_steps(alloc, places, cover.as_slice())?;
            Ok(Violation::Witness {
                empty: moved_place(places, *empty),
                cover: Cover::from_vec(steps),
            })
        }
    }
}

/// Returns the verdict by places of the whole, where `places` are those of the selection's operations.
pub(crate) fn moved_verdict(
    alloc: Global,
    places: &[OpId],
    verdict: &Verdict,
) -> Result<Verdict, AllocError>
    ensures { IfOk result (λ moved. moved ≡ moved_verdict places.now verdict.now) }
{
    match verdict {
        Verdict::Yes(order) => {
            let moved = moved_order(alloc, places, order.as_slice())?;
            Ok(Verdict::Yes(Order::from_vec(moved)))
        }
        Verdict::No(violation) => Ok(Verdict::No(moved_violation(alloc, places, violation)?)),
    }
}
