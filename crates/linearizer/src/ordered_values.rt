ghost use Rattle.std.specs.Prelude.{IfOk};
ghost use Rattle.value_match.specs.Lives.{course_of};
ghost use Rattle.value_match.specs.Violations.{IsClear};
ghost use Rattle.linearizer.specs.Ordering.{OrdersValues};
ghost use Rattle.linearizer.specs.Inner.Placement.{IsOrderOf};

use crate::choice::{Swept, put_in_order};
use crate::timed::PackedTimed;
use history_merge::Operations;
use std::alloc::{AllocError, Global};
use std::marker::Model;
use value_match::{MatchedValue, Matching};

/// The enqueued values of a matching in their chosen order, each with the gap of its enqueue. Contracts see the
/// history that they belong to.
///
/// Borrows the history, and takes a word for each operation and each initial value.
#[derive(Drop)]
pub struct OrderedValues<'a> {
    initial: &'a [u64],
    operations: Operations<'a>,
    // The place of each value and the gap of its enqueue.
    order: Vec<PackedTimed>,
}

impl<'a> Model for OrderedValues<'a> {
    ghost use Rattle.history_merge.specs.Initial.{Contents};
    ghost use Rattle.value_match.specs.Lives.{course};
    ghost use Rattle.value_match.specs.Violations.{IsClear};
    ghost use Rattle.linearizer.specs.Inner.Placement.{IsOrderOf};

    ghost Value = { Contents };

    ghost view = { λ a. record { initial = a.initial.now; operations = a.operations } };

    ghost invariant = { λ a. IsClear (course a.initial.now a.operations)
        × IsOrderOf (record { initial = a.initial.now; operations = a.operations }) a.order.items };
}

/// The result of ordering the values of a matching.
#[derive(Drop)]
pub enum OrderFound<'a> {
    /// The values in their chosen order. No two are dequeued against the order of their enqueues.
    InOrder(OrderedValues<'a>),
    /// The first-dequeued value that overtakes another.
    Overtaker(MatchedValue),
}

/// Puts the enqueued values of a matching in their chosen order, or finds that two are dequeued against the order of
/// their enqueues.
///
/// Takes O(n log n) time for n values, and little more than one pass if they enter and leave nearly in the order of
/// their enqueues' calls. The only error is out of memory.
pub fn order_values<'a>(alloc: Global, matching: &'a Matching) -> Result<OrderFound<'a>, AllocError>
    ensures { IfOk result (OrdersValues matching.now) }
{
    let initial = matching.initial();
    let operations = matching.operations();
    // As large as the buffer that matching freed, so that this one reuses it whole. A later buffer in a part of it
    // would touch memory that was never in use.
    let room = initial.len().saturating_add(operations.len());
    match put_in_order(alloc, &matching.values(), room)? {
        Swept::InOrder(order) => Ok(OrderFound::InOrder(OrderedValues {
            initial,
            operations,
            order,
        })),
        Swept::PassedOver(value) => Ok(OrderFound::Overtaker(value)),
    }
}

impl<'a> OrderedValues<'a> {
    /// Returns the places of the values in their chosen order, each with the gap of its enqueue.
    pub(crate) fn order(&self) -> &[PackedTimed]
        ensures clear { IsClear (course_of self.now) }
        ensures order { IsOrderOf self.now result.now }
    {
        self.order.as_slice()
    }
}
