//! Drains the rings of all threads while they push, and seals them once they are closed.
//!
//! Nothing here takes a lock or waits. A sealed list has all events that its thread pushed, in order, however many
//! were drained before.
#![tactic(auto)]

mod drained;
mod rounds;

pub use rounds::{CollectError, Collector};
