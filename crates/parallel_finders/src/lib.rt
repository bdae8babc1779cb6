//! Searches for values dequeued against the order of their enqueues and for covered empty dequeues, in pieces that
//! may run at once. They find what the searches in one piece find.
#![tactic(auto)]

mod order;
mod overtaking;
mod search;
mod sorting;
mod windows;
mod witness;

pub use order::{find_order_par, order_in_pieces};
pub use search::{InPieces, OnePiece, WitnessSearch};
pub use witness::{find_witness_par, witness_in_pieces};

/// The maximum number of pieces of a search.
pub const MAX_PIECES: usize = 64;

/// The minimum number of values, or of empty dequeues, for a search in pieces. A smaller one is made in one piece,
/// and starts no thread.
pub const MIN_ITEMS: usize = 100_000;
