/// A source of values: a thread that enqueues them, or the initial values.
#[derive(Clone, Copy, Debug, PartialEq, Eq)]
pub enum Producer {
    /// The initial values.
    Initial,
    /// The thread with this number.
    Thread(u8),
}

/// The guarantee of an empty dequeue.
#[derive(Clone, Copy, Debug, PartialEq, Eq)]
pub enum Emptiness {
    /// The queue was empty at some moment during the call.
    Strict,
    /// No guarantee.
    Weak,
}
