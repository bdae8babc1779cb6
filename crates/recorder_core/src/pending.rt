use event_records::Answer;

/// A request to the queue.
#[derive(Clone, Copy)]
pub enum Request {
    /// To enqueue this value.
    Enqueue(u64),
    /// To dequeue the first value.
    Dequeue,
}

/// An operation without a return yet.
#[derive(Clone, Copy)]
pub struct Pending {
    pub request: Request,
    pub answer: Option<Answer>,
}
