//! Verdicts and claims as data: what was found of a history, what somebody says of one, and the lines that name it.
//!
//! Nothing here searches a history.
#![tactic(auto)]

mod claimed;
mod claiming;
mod shown;
mod verdict;

pub use claimed::{ClaimLine, ClaimLines, Claimed, Lines, ViolationKind};
pub use claiming::{claim, violation_lines};
pub use shown::LinePlace;
pub use verdict::{Order, Verdict};
