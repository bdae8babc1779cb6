//! Values dequeued against the order of their enqueues.
#![tactic(auto)]

mod overtaking;
mod pair;
mod search;

pub use overtaking::{first_of, first_overtaking};
pub use pair::OrderPair;
pub use search::{chosen_pair, find_order};
