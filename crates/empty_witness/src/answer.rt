use event_records::OwnedSlice;
use history_merge::OpId;
use value_match::Cover;

/// The gaps of empty dequeues, seen as a list. Gap c is the time just after ticket c.
pub type Gaps = OwnedSlice<u64>;

/// The result of searching the window of one empty dequeue.
#[derive(Debug, Drop)]
pub enum GapAnswer {
    /// The least gap of the window at which the queue may have been empty.
    Free(u64),
    /// The chosen cover: at each moment the queue held one of these values.
    Covered(Cover),
}

/// The result of searching the windows of all empty dequeues.
#[derive(Debug, Drop)]
pub enum WitnessAnswer {
    /// The least free gap of each empty dequeue, in the order of their calls.
    Gaps(Gaps),
    /// The empty dequeue that returned first among those whose windows are covered, with its chosen cover.
    Covered { empty: OpId, cover: Cover },
}
