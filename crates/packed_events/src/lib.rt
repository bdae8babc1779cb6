//! Events in half the memory.
#![tactic(auto)]

mod packed;

pub use packed::PackedEvent;
