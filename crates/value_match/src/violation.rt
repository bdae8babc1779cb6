use crate::life::Source;
use event_records::OwnedSlice;
use history_merge::OpId;

/// A value of a cover: its source, and the place of its dequeue, if there is one.
#[derive(Clone, Copy, Debug, PartialEq, Eq)]
pub struct CoverStep {
    pub source: Source,
    pub dequeue: Option<OpId>,
}

/// Values that together keep the queue from being empty, each taking over from the one before; seen as the list of
/// them.
pub type Cover = OwnedSlice<CoverStep>;

/// A violation, by the sources of values and the places of operations that show it.
#[derive(Debug, Drop)]
pub enum Violation {
    /// A phantom dequeue: its value was not in the queue. `enq` is the call to enqueue the value, successful or
    /// failed, if there is one.
    Fresh {
        deq: OpId,
        enq: Option<OpId>,
    },
    /// Two dequeues of one value, in the order of their returns.
    Repeat {
        enq: Source,
        first: OpId,
        second: OpId,
    },
    /// The value b was dequeued before a, though a was enqueued before b.
    Order {
        enq_a: Source,
        enq_b: Source,
        deq_b: OpId,
        deq_a: Option<OpId>,
    },
    /// An empty dequeue, while the values of the cover kept the queue from being empty.
    Witness {
        empty: OpId,
        cover: Cover,
    },
}
