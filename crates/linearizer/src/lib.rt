//! The linearization of a history without violations.
#![tactic(auto)]

mod by_time;
mod choice;
mod noops;
mod order;
mod ordered_values;
mod placing;
mod position;
mod timed;

pub use order::linearize;
pub use ordered_values::{OrderFound, OrderedValues, order_values};
