/// The call of a thread, or its return.
#[derive(Clone, Copy, Debug, PartialEq, Eq)]
pub enum What {
    /// An enqueue of this value is called.
    CallEnq(u64),
    /// The enqueue returns: it succeeded.
    RetEnq,
    /// The enqueue returns: it failed, as the queue was full or out of memory.
    RetNot,
    /// A dequeue is called.
    CallDeq,
    /// The dequeue returns this value.
    RetDeq(u64),
    /// The dequeue returns: it found the queue empty.
    RetEmpty,
}

/// One call or return of one thread, at its ticket.
///
/// This is plain data, with any ticket and any thread number. `history` of the crate `history_merge` rejects those
/// that are out of range.
#[derive(Clone, Copy, Debug, PartialEq, Eq)]
pub struct Event {
    pub ticket: u64,
    pub thread: u8,
    pub what: What,
}
