//! Plans: the operations that each worker of a run makes, in order.
#![tactic(auto)]

mod plans;
mod roles;
mod seeds;
mod texts;

pub use event_records::{Kind, MAX_WORKERS};
pub use plans::{Plan, Row};
pub use texts::PlanFault;
