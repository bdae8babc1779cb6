use event_records::OwnedSlice;
use history_merge::Operation;

/// The lines of a `YES`, seen as a list. Any operations may be listed.
pub type Lines = OwnedSlice<Operation>;

/// A line of a `NO`.
#[derive(Clone, Copy, Debug, PartialEq, Eq)]
pub enum ClaimLine {
    /// An operation.
    Op(Operation),
    /// An initial value of the queue, in place of a successful enqueue of it.
    Initial(u64),
}

/// The lines of a `NO`, seen as a list. Any lines may be listed.
pub type ClaimLines = OwnedSlice<ClaimLine>;

/// The kinds of violation, by the names that verdicts print.
#[derive(Clone, Copy, Debug, PartialEq, Eq)]
pub enum ViolationKind {
    /// A phantom dequeue: its value was not in the queue.
    VFresh,
    /// A value dequeued twice.
    VRepeat,
    /// Two values dequeued against the order of their enqueues.
    VOrd,
    /// An empty dequeue while some value was in the queue all the time.
    VWit,
}

/// A verdict that somebody claims. It may be false, and may name operations that don't exist.
#[derive(Debug, Drop)]
pub enum Claimed {
    /// All operations, in the order of a linearization.
    Yes(Lines),
    /// The lines that show a violation of this kind, in this order, where the enqueue of an initial value is the line
    /// of that value:
    ///
    /// - `VFresh`: the dequeue, then the enqueue of its value, successful or failed, if the history has one;
    /// - `VRepeat`: the successful enqueue, then two dequeues of its value in the order of their returns;
    /// - `VOrd`: the enqueues of a and of b, the dequeue of b, then a dequeue of a if the history has one;
    /// - `VWit`: the empty dequeue, then for each value of a cover its successful enqueue and its dequeue; the last
    ///   value has no dequeue if the history has none.
    No(ViolationKind, ClaimLines),
}
