//! Operations as a history keeps them.
ghost use Rattle.std.specs.Prelude.{◌≡◌, ◌<◌, ℕ, Some};
ghost use Rattle.history_merge.specs.Operations.{enqueued_value};
ghost use Rattle.history_merge.specs.declared.packed.TheConstants.{PACKED_LIMIT};
ghost use Rattle.history_merge.specs.Inner.Packed.{joined, tag_of, value_of};

use crate::operation::{OpKind, Operation};
use std::fmt::{Debug, Error, Formatter, Write};
use std::marker::Model;

/// One above the greatest ticket or time that fits into a packed operation: both have 40 bits there.
pub const PACKED_LIMIT: u64 = 1 << 40;

/// The number of values of a lower half.
const LOWER: u64 = 1 << 32;

/// The kind of an operation without its value.
#[derive(Clone, Copy)]
pub(crate) enum Tag {
    Enq,
    Deq,
    Empty,
    Not,
}

/// An operation in 20 bytes, seen as the operation.
#[derive(Clone, Copy)]
pub struct PackedOperation {
    // The halves of the value; 0 if there is none.
    value: u32,
    upper_value: u32,
    call: u32,
    ret: u32,
    upper_call: u8,
    upper_ret: u8,
    thread: u8,
    tag: Tag,
}

impl Model for PackedOperation {
    ghost use Rattle.std.specs.Prelude.{◌/◌, ◌%◌};
    ghost use Rattle.history_merge.specs.declared.operation.Operation.{Operation};
    ghost use Rattle.history_merge.specs.declared.packed.TheConstants.{LOWER};
    ghost use Rattle.history_merge.specs.Inner.Packed.{IsPacked, back_lower, back_lower_value, back_tag, back_upper};
    ghost use Rattle.history_merge.specs.Inner.Packed.{back_upper_value, joined, kind_by, tag_of, value_of};

    ghost Value = { Operation };

    ghost view = { λ a. record {
      call = joined a.upper_call a.call;
      ret = joined a.upper_ret a.ret;
      thread = a.thread;
      kind = kind_by a.tag (joined a.upper_value a.value);
    } };

    ghost invariant = { λ a. IsPacked a.tag a.upper_value a.value a.call a.ret };

    ghost inverse = { λ o. record {
      value = value_of o.kind % LOWER;
      upper_value = value_of o.kind / LOWER;
      call = o.call % LOWER;
      ret = o.ret % LOWER;
      upper_call = o.call / LOWER;
      upper_ret = o.ret / LOWER;
      thread = o.thread;
      tag = tag_of o.kind;
    } };

    ghost inverse_ok = { λ a h t. record {
      value = back_lower_value a.tag a.upper_value a.value h.no_value h.value t;
      upper_value = back_upper_value a.tag a.upper_value a.value h.no_value h.value t;
      call = back_lower a.upper_call a.call h.call t;
      ret = back_lower a.upper_ret a.ret h.ret t;
      upper_call = back_upper a.upper_call a.call h.call t;
      upper_ret = back_upper a.upper_ret a.ret h.ret t;
      thread = a.thread;
      tag = back_tag a.tag (joined a.upper_value a.value) t;
    } };
}

impl PackedOperation {
    /// Packs an operation.
    #[inline(always)]
    pub fn new(operation: Operation) -> PackedOperation
        requires call { operation.call < PACKED_LIMIT }
        requires ret { operation.ret < PACKED_LIMIT }
        ensures { result ≡ operation }
    {
        let value = value_of(operation.kind);
        PackedOperation {
            value: (value % LOWER) as u32,
            upper_value: (value / LOWER) as u32,
            call: (operation.call % LOWER) as u32,
            ret: (operation.ret % LOWER) as u32,
            upper_call: (operation.call / LOWER) as u8,
            upper_ret: (operation.ret / LOWER) as u8,
            thread: operation.thread,
            tag: tag_of(operation.kind),
        }
    }

    /// Returns the value if the operation called to enqueue one, without looking whether it did. Otherwise the number
    /// means nothing.
    #[inline(always)]
    pub fn value(&self) -> u64
        ensures called { (v : ℕ) → enqueued_value self.now.kind ≡ Some v → result ≡ v }
    {
        joined(self.upper_value, self.value)
    }

    /// Unpacks the operation.
    #[inline(always)]
    pub fn unpack(self) -> Operation
        ensures operation { result ≡ self }
        ensures call { result.call < PACKED_LIMIT }
        ensures ret { result.ret < PACKED_LIMIT }
    {
        let value = joined(self.upper_value, self.value);
        Operation {
            call: u64::from(self.upper_call) * LOWER + u64::from(self.call),
            ret: u64::from(self.upper_ret) * LOWER + u64::from(self.ret),
            thread: self.thread,
            kind: match self.tag {
                Tag::Enq => OpKind::Enqueue(value),
                Tag::Deq => OpKind::Dequeue(value),
                Tag::Empty => OpKind::DequeueEmpty,
                Tag::Not => OpKind::EnqueueFailed(value),
            },
        }
    }
}

impl Debug for PackedOperation {
    fn fmt<W: Write>(&self, f: &mut Formatter<W>) -> Result<(), Error> {
        self.unpack().fmt(f)
    }
}

/// Joins two halves to a number.
#[inline(always)]
fn joined(upper: u32, lower: u32) -> u64
    ensures { result ≡ joined upper lower }
{
    u64::from(upper) * LOWER + u64::from(lower)
}

#[inline(always)]
fn tag_of(kind: OpKind) -> Tag
    ensures { result ≡ tag_of kind }
{
    match kind {
        OpKind::Enqueue(_) => Tag::Enq,
        OpKind::Dequeue(_) => Tag::Deq,
        OpKind::DequeueEmpty => Tag::Empty,
        OpKind::EnqueueFailed(_) => Tag::Not,
    }
}

/// Returns the value of this kind, or 0 if it has none.
#[inline(always)]
fn value_of(kind: OpKind) -> u64
    ensures { result ≡ value_of kind }
{
    match kind {
        OpKind::Enqueue(value) | OpKind::Dequeue(value) | OpKind::EnqueueFailed(value) => value,
        OpKind::DequeueEmpty => 0,
    }
}
