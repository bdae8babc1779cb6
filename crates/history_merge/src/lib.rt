//! Recorded events merged by ticket, and the complete history that they are.
#![tactic(auto)]

mod build;
mod builder;
mod called;
mod clash;
mod complete;
mod events;
mod fault;
mod forming;
mod gathering;
mod matching;
mod merging;
mod operation;
mod operations;
mod packed;
mod part;
mod recorded;
mod timeline;

pub use build::{history, history_from};
pub use builder::HistoryBuilder;
pub use clash::{Clash, Placed};
pub use complete::History;
pub use events::Events;
pub use fault::HistoryFault;
pub use merging::merge;
pub use operation::{OpId, OpKind, Operation};
pub use operations::Operations;
pub use packed::{PACKED_LIMIT, PackedOperation};
pub use part::part_at;
pub use recorded::merged_from;
