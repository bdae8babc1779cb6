//! Histories with pending calls, and the completion that decides them (Herlihy and Wing 1990, section 2.2).
#![tactic(auto)]

mod answers;
mod completion;
mod fault;
mod given;
mod last;
mod laws;
mod left;
mod pending;
mod walk;

pub use answers::Answer;
pub use completion::{Completion, complete, next_ticket};
pub use fault::CompletionFault;
pub use laws::the_completion_decides;
