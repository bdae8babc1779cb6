//! The content of a history's text, in which calls may be pending.
use crate::version::Version;
use event_records::OwnedSlice;
use packed_events::PackedEvent;

/// Initial values in order, seen as a list.
pub type Values = OwnedSlice<u64>;

/// Events in order, 16 bytes for each, seen as a list.
pub type EventList = OwnedSlice<PackedEvent>;

/// The content of a history's text, in which calls may be pending. It may have any values and events;
/// [`crate::read_pending`] returns those of a text.
#[derive(Drop)]
pub struct PendingText {
    pub version: Version,
    /// The initial values, front first. Version 1 has none.
    pub initial: Values,
    pub events: EventList,
    /// The number of pending calls that a pending text gives. `None` for the text of a history, which gives none, and
    /// for a text that is cut off before it.
    pub open_calls: Option<usize>,
}
