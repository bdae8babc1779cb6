//! Tickets: numbers that threads draw from one word by single atomic steps, each number once.
//!
//! `Tickets` owns the word, which is the next number. A thread draws with a `Pass`, which has a share of the budget
//! and lists the tickets that it drew. A pass can be split, so that another thread gets a part of its share, and
//! passes can be joined again. A pass whose share is the whole budget holds each number below the word once.
//!
//! No function here takes a lock or waits. Only those that make `Tickets` take memory, and only they can fail. Without
//! nodes there are seven kinds of step:
//!
//! - Making sets the word to 0, and gives the first pass the whole budget.
//! - Splitting, drawing and joining change the view of the pass that steps. A pass that was joined to another keeps
//!   the empty view.
//! - A look at the word follows each join. It changes no view.
//! - Noting reads the word, and adds a note to the log, which exists only in proofs.
//! - Closing reads the word.
#![tactic(auto)]

mod account;
mod drawn;
mod laws;
mod log;
mod note;
mod pass;
mod ring;
mod shared;
mod source;

pub use drawn::Drawn;
pub use laws::each_ticket_is_drawn_once;
pub use log::Log;
pub use note::{Effect, Note};
pub use pass::Pass;
pub use ring::{HeadEnd, TailEnd};
pub use source::Tickets;

/// The largest budget. Every ticket is below it.
pub const TICKET_LIMIT: u64 = 1_000_000_000_000;

/// The mark of an empty node among those that all passes share: 2^38 - 1. It is not a value.
pub const NO_VALUE: u64 = (1 << 38) - 1;
