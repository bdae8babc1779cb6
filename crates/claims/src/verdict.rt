use event_records::OwnedSlice;
use history_merge::OpId;
use value_match::Violation;

/// Operations in an order, seen as the list of their places among the operations of the history, from 0.
pub type Order = OwnedSlice<OpId>;

/// The answer to whether a history is linearizable, with its evidence.
#[derive(Debug, Drop)]
pub enum Verdict {
    /// It is linearizable, and this order of its operations is a linearization.
    Yes(Order),
    /// It isn't, as these of its operations and initial values show.
    No(Violation),
}
