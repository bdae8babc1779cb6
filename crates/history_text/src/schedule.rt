//! Schedules: a setting, and the steps that are tried in it.
use event_records::{MAX_RING, OwnedSlice};
use recorder_core::Step;

/// The maximum number of events that a step in the text of a schedule drains.
pub const MOST_DRAINED: u32 = MAX_RING as u32;

/// The steps of a schedule in order, seen as a list.
pub type Steps = OwnedSlice<Step>;

/// The content of a schedule's text. It may have any numbers and steps; `read_schedule` returns those of a text.
#[derive(Drop)]
pub struct Schedule {
    /// The number of threads of the machine.
    pub threads: usize,
    /// The capacity of each thread's ring, in events.
    pub ring: usize,
    /// The steps that are tried, one after another. Some may be rejected.
    pub steps: Steps,
}
