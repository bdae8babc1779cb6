ghost use Rattle.std.specs.Prelude.{◌≡◌, IfOk, map};
ghost use Rattle.value_match.specs.Times.{time_of};
ghost use Rattle.value_match.specs.Lives.{AreLeastFreeGaps, course_of};
ghost use Rattle.value_match.specs.Violations.{NoOrderViolation};
ghost use Rattle.linearizer.specs.Order.{AreChosenAndLegal};

use crate::noops::noops_of;
use crate::ordered_values::OrderedValues;
use crate::placing::merge;
use history_merge::OpId;
use std::alloc::{AllocError, Global};
use value_match::Matching;

/// Returns the chosen linearization (Herlihy and Wing 1990) of a history without violations, as places in
/// `matching.operations()`. It follows the order of the values, and the queue holds the initial values first.
///
/// An operation at a lower gap comes before one at a higher gap; gap `c` is the time between tickets `c` and `c +
/// 1`. `gaps` has the least free gap of each empty dequeue, in the order of their calls.
///
/// The call takes a word for each empty dequeue and failed enqueue, and half a word for each operation. Its time
/// grows as that of sorting the empty dequeues and failed enqueues. The only error is out of memory.
pub fn linearize(
    alloc: Global,
    matching: &Matching,
    values: &OrderedValues,
    gaps: &[u64],
) -> Result<Vec<OpId>, AllocError>
    requires values { values.now ≡ matching.now }
    requires no_order_violation { NoOrderViolation (course_of matching.now) }
    requires least_free_gaps { AreLeastFreeGaps (course_of matching.now) (map time_of gaps.now) }
    ensures { IfOk result (λ places. AreChosenAndLegal matching.now.initial matching.now.operations places.items) }
{
    let order = values.order();
    let noops = noops_of(alloc, matching, gaps)?;
    merge(alloc, matching, order, &noops)
}
