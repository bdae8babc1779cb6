//! The legend of a picture.
ghost use Rattle.std.specs.Prelude.{◌≡◌, ◌++◌, IfOk, OnOk};
ghost use Rattle.drawing.specs.Signs.{number_signs, band_signs, operation_signs, signs_of, meaning};
ghost use Rattle.drawing.specs.Scene.{scene_on};

use crate::canvas::Scene;
use crate::drawn::is_any_away;
use crate::line::Added;
use crate::pending::is_any_pending;
use claims::{Claimed, ViolationKind};
use std::alloc::{AllocError, Global};

/// A sign of a picture that the legend explains.
#[derive(Clone, Copy)]
pub enum Sign {
    /// An initial value.
    First,
    /// A number in the order of a `YES`.
    InOrder,
    /// A number in a `NO` whose lines are operations.
    OfOperations,
    /// A number in a `NO` whose lines are operations and initial values.
    OfValues,
    /// A band in which a value was definitely in the queue.
    Present,
    /// A band in which a value was definitely not in the queue.
    Absent,
    /// The time in which that value was dequeued.
    Dequeued,
    /// The time in which a later value was enqueued and dequeued.
    InAndOut,
    /// The time of a dequeue that found the queue empty.
    SaidEmpty,
    /// An operation that overlaps none of those that show a `NO`.
    Away,
    /// An operation that never returned.
    Pending,
}

fn number_signs(claimed: &Claimed, initial: &[u64]) -> &'static [Sign]
    ensures { result.now ≡ number_signs claimed.now initial.now }
{
    match (claimed, initial) {
        (Claimed::Yes(_), []) => &[Sign::InOrder],
        (Claimed::Yes(_), [_, ..]) => &[Sign::First, Sign::InOrder],
        (Claimed::No(_, _), []) => &[Sign::OfOperations],
        (Claimed::No(_, _), [_, ..]) => &[Sign::First, Sign::OfValues],
    }
}

fn band_signs(claimed: &Claimed) -> &'static [Sign]
    ensures { result.now ≡ band_signs claimed.now }
{
    match claimed {
        Claimed::Yes(_) | Claimed::No(ViolationKind::VRepeat, _) => &[],
        Claimed::No(ViolationKind::VFresh, _) => &[Sign::Absent, Sign::Dequeued],
        Claimed::No(ViolationKind::VOrd, _) => &[Sign::Present, Sign::InAndOut],
        Claimed::No(ViolationKind::VWit, _) => &[Sign::Present, Sign::SaidEmpty],
    }
}

/// Adds the signs of the operations.
fn push_operation_signs(signs: &mut Vec<Sign>, scene: &Scene<'_>) -> Added
    ensures { OnOk result (signs.new.items ≡ signs.old.items ++ operation_signs (scene_on scene.now)) }
{
    if is_any_away(scene.claimed, scene.operations.as_slice()) {
        signs.push(Sign::Away)?;
    }
    if is_any_pending(scene.added_from, scene.operations.as_slice()) {
        signs.push(Sign::Pending)?;
    }
    Ok(())
}

/// Returns the signs of a picture, from top to bottom.
#[tactic(auto, unfolding(crate::specs::Signs::signs_of))]
pub fn signs_of(alloc: Global, scene: &Scene<'_>) -> Result<Vec<Sign>, AllocError>
    ensures { IfOk result (λ signs. signs.items ≡ signs_of (scene_on scene.now)) }
{
    let mut signs = Vec::from_slice(alloc, number_signs(scene.claimed, scene.initial.as_slice()))?;
    signs.extend_from_slice(band_signs(scene.claimed))?;
    push_operation_signs(&mut signs, scene)?;
    Ok(signs)
}

/// Returns the meaning of a sign.
pub fn meaning(sign: Sign) -> &'static [u8]
    ensures { result.now ≡ meaning sign }
{
    match sign {
        Sign::First => b"a value that was in the queue first, the front one on top",
        Sign::InOrder => b"number 1 in the order, where it takes effect",
        Sign::OfOperations => b"number 1 of the operations that show it",
        Sign::OfValues => b"number 1 of the values and operations that show it",
        Sign::Present => b"the value surely was in the queue.",
        Sign::Absent => b"the value surely was not in the queue.",
        Sign::Dequeued => b"within this time it was dequeued nevertheless.",
        Sign::InAndOut => b"within this time the later value went in and out.",
        Sign::SaidEmpty => b"within this time the queue was said to be empty.",
        Sign::Away => b"an operation that overlaps none of those with numbers",
        Sign::Pending => b"to the end: a call that never returned; a completion gave its answer",
    }
}
