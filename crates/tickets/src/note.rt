// The notes of a log: what each operation did to a queue.

/// The effect of an operation on a queue.
#[derive(Clone, Copy, Debug, PartialEq, Eq)]
pub enum Effect {
    /// It enqueued this value.
    Enq(u64),
    /// It dequeued this value, which was the first one.
    Deq(u64),
    /// It found the queue empty, and changed nothing.
    Empty,
    /// It failed to enqueue this value, and changed nothing.
    Not(u64),
}

/// A note of an operation: its call ticket, its effect, and the next ticket at the moment of the note.
///
/// It exists only in contracts: no code makes one.
pub struct Note {
    pub call: u64,
    pub effect: Effect,
    pub look: u64,
}
