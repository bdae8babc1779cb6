//! The statistics of a history: the numbers of its events, operations and threads, how far its operations overlap,
//! how many values its queue definitely held, and which dequeues certainly overtook values.
#![tactic(auto)]

mod at_once;
mod counting;
mod failed_enqueues;
mod laws;
mod moment;
mod overlapping;
mod overtaking;
mod pending;
mod queued;
mod statistics;
mod stays;
mod takings;
mod tally;
mod writing;

pub use laws::a_history_has_one_statistics;
pub use overtaking::{Overtaking, overtakings_of};
pub use statistics::{Statistics, statistics_of};
pub use writing::{write_overtakings, write_statistics};
