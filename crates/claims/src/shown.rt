ghost use Rattle.std.specs.Prelude.{◌≡◌, ◌++◌, IfOk, OnOk, flat_map};
ghost use Rattle.claims.specs.Claiming.{line_at};
ghost use Rattle.claims.specs.Shown.{maybe_place, violation_places, places_of_step};
ghost use Rattle.claims.specs.Inner.Shown.{first_places, later_places};

use crate::claimed::ClaimLine;
use history_merge::{OpId, Operations};
use std::alloc::{AllocError, Global};
use value_match::{Cover, Source, Violation};

/// The place of a verdict's line, among the operations of a history or among its initial values.
#[derive(Clone, Copy)]
pub enum LinePlace {
    /// The operation at this place.
    Op(OpId),
    /// The initial value at this place.
    Initial(usize),
}

impl From<Source> for LinePlace {
    ghost use Rattle.std.specs.Prelude.{◌≡◌};
    ghost use Rattle.claims.specs.Shown.{place_of_source};

    ghost from_gives = { λ source place. place ≡ place_of_source source };

    fn from(source: Source) -> LinePlace {
        match source {
            Source::Enq(place) => LinePlace::Op(place),
            Source::Initial(place) => LinePlace::Initial(place),
        }
    }
}

impl LinePlace {
    /// Returns the line at this place among these initial values and operations, if there is one.
    pub fn line(self, initial: &[u64], operations: &Operations<'_>) -> Option<ClaimLine>
        ensures { result ≡ line_at initial.now operations.now self }
    {
        match self {
            LinePlace::Op(place) => operations.get(place).map(ClaimLine::Op),
            LinePlace::Initial(place) => initial.get(place).copied().map(ClaimLine::Initial),
        }
    }
}

/// Returns the places that a violation names, in the order in which they are shown.
pub(crate) fn violation_places(
    alloc: Global,
    violation: &Violation,
) -> Result<Vec<LinePlace>, AllocError>
    ensures { IfOk result (λ places. places.items ≡ violation_places violation.now) }
{
    let mut places = first_places(alloc, violation)?;
    push_later_places(violation, &mut places)?;
    Ok(places)
}

/// Returns the places that a violation of this kind always names.
fn first_places(alloc: Global, violation: &Violation) -> Result<Vec<LinePlace>, AllocError>
    ensures { IfOk result (λ places. places.items ≡ first_places violation.now) }
{
    match violation {
        Violation::Fresh { deq, .. } => Vec::from_slice(alloc, &[LinePlace::Op(*deq)]),
        Violation::Repeat { enq, first, second } => Vec::from_slice(
            alloc,
            &[
                LinePlace::from(*enq),
                LinePlace::Op(*first),
                LinePlace::Op(*second),
            ],
        ),
        Violation::Order {
            enq_a,
            enq_b,
            deq_b,
            ..
        } => Vec::from_slice(
            alloc,
            &[
                LinePlace::from(*enq_a),
                LinePlace::from(*enq_b),
                LinePlace::Op(*deq_b),
            ],
        ),
        Violation::Witness { empty, .. } => Vec::from_slice(alloc, &[LinePlace::Op(*empty)]),
    }
}

/// Appends the later places: of an operation that may be missing, or of a cover.
fn push_later_places(violation: &Violation, places: &mut Vec<LinePlace>) -> Result<(), AllocError>
    ensures { OnOk result (places.new.items ≡ places.old.items ++ later_places violation.now) }
{
    match violation {
        Violation::Fresh { enq: last, .. } | Violation::Order { deq_a: last, .. } => {
            push_maybe(*last, places)
        }
        Violation::Repeat { .. } => Ok(()),
        Violation::Witness { cover, .. } => push_cover(cover, places),
    }
}

fn push_maybe(place: Option<OpId>, places: &mut Vec<LinePlace>) -> Result<(), AllocError>
    ensures { OnOk result (places.new.items ≡ places.old.items ++ maybe_place place) }
{
    if let Some(place) = place {
        places.push(LinePlace::Op(place))?;
    }
    Ok(())
}

/// Appends the places of a cover's values, value by value.
fn push_cover(cover: &Cover, places: &mut Vec<LinePlace>) -> Result<(), AllocError>
    ensures { OnOk result (places.new.items ≡ places.old.items ++ flat_map places_of_step cover.now) }
{
    for step in cover.as_slice() {
        places.push(LinePlace::from(step.source))?;
        push_maybe(step.dequeue, places)?;
    }
    Ok(())
}
