use history_merge::OpId;
use value_match::Source;

/// Two values dequeued against the order of their enqueues, by their sources and the places of their dequeues, which
/// count from 0. The enqueue of a precedes that of b, but b is dequeued before a, or a never.
#[derive(Clone, Copy, Debug, PartialEq, Eq)]
pub struct OrderPair {
    pub enq_a: Source,
    pub enq_b: Source,
    pub deq_b: OpId,
    pub deq_a: Option<OpId>,
}
