ghost use Rattle.std.specs.Prelude.{◌≡◌, IfOk};
ghost use Rattle.history_merge.specs.Operations.{operations_of};
ghost use Rattle.claims.specs.Claiming.{IsWithin, claim_of, lines_at, operations_at, violation_kind, violation_lines};

use crate::claimed::{ClaimLine, ClaimLines, Claimed, Lines, ViolationKind};
use crate::shown::{LinePlace, violation_places};
use crate::verdict::Verdict;
use history_merge::{History, OpId, Operation, Operations};
use std::alloc::{AllocError, Global};
use value_match::Violation;

/// Returns the claim of a verdict: its operations and initial values, in the order in which its text lists them.
///
/// The claim no longer needs the places of this history, so it can be verified by itself, or against another history.
/// Time and memory are linear in the verdict. The only error is out of memory.
pub fn claim(alloc: Global, history: &History, verdict: &Verdict) -> Result<Claimed, AllocError>
    // The verdict's places are those of operations and initial values of this history.
    requires places { IsWithin history.now.initial (operations_of history.now.events) verdict.now }
    ensures claim { IfOk result
        (λ claimed. claimed ≡ claim_of history.now.initial (operations_of history.now.events) verdict.now) }
{
    match verdict {
        Verdict::Yes(order) => {
            let lines = operations_at(alloc, &history.operations(), order.as_slice())?;
            Ok(Claimed::Yes(Lines::from_vec(lines)))
        }
        Verdict::No(violation) => {
            let lines = violation_lines(alloc, history, violation)?;
            Ok(Claimed::No(kind_of(violation), ClaimLines::from_vec(lines)))
        }
    }
}

/// Returns the operations at these places.
fn operations_at(
    alloc: Global,
    operations: &Operations<'_>,
    places: &[OpId],
) -> Result<Vec<Operation>, AllocError>
    ensures { IfOk result (λ listed. listed.items ≡ operations_at operations.now places.now) }
{
    places
        .iter()
        .filter_map(|place| operations.get(*place))
        .collect(alloc)
}

/// Returns the lines of a violation of this history, in the order in which they are shown.
///
/// Takes time and memory linear in the violation. `AllocError` comes only if a growth was refused.
pub fn violation_lines(
    alloc: Global,
    history: &History,
    violation: &Violation,
) -> Result<Vec<ClaimLine>, AllocError>
    ensures { IfOk result (λ lines. lines.items ≡ violation_lines history.now violation.now) }
{
    let places = violation_places(alloc, violation)?;
    lines_at(
        alloc,
        history.initial(),
        &history.operations(),
        places.as_slice(),
    )
}

/// Returns the lines at these places.
fn lines_at(
    alloc: Global,
    initial: &[u64],
    operations: &Operations<'_>,
    places: &[LinePlace],
) -> Result<Vec<ClaimLine>, AllocError>
    ensures { IfOk result (λ listed. listed.items ≡ lines_at initial.now operations.now places.now) }
{
    places
        .iter()
        .filter_map(|place| place.line(initial, operations))
        .collect(alloc)
}

/// Returns the kind of a violation.
fn kind_of(violation: &Violation) -> ViolationKind
    ensures { result ≡ violation_kind violation.now }
{
    match violation {
        Violation::Fresh { .. } => ViolationKind::VFresh,
        Violation::Repeat { .. } => ViolationKind::VRepeat,
        Violation::Order { .. } => ViolationKind::VOrd,
        Violation::Witness { .. } => ViolationKind::VWit,
    }
}
