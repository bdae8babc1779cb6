/// The kind of an operation.
#[derive(Clone, Copy, Debug, PartialEq, Eq)]
pub enum Kind {
    /// An enqueue, which puts a value in last.
    Enq,
    /// A dequeue, which takes the first value out.
    Deq,
}

/// An answer of a queue.
#[derive(Clone, Copy, Debug, PartialEq, Eq)]
pub enum Answer {
    /// The enqueue succeeded.
    Taken,
    /// The enqueue failed: the queue was full or out of memory.
    Not,
    /// The dequeue got this value.
    Got(u64),
    /// The dequeue found the queue empty.
    Empty,
}
