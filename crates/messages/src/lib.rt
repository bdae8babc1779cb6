//! Messages on standard error: a sentence says what is wrong, and another one what to do.
//!
//! A message is one or two lines, each of which begins with the program's name. Bytes of the input are shown in
//! printable ASCII. A source keeps the front of what it gives, so that a message can show a line of it.
#![tactic(auto)]

mod complaints;
mod ends;
mod front;
mod history_faults;
mod input;
mod message;
mod quoting;
mod ranges;
mod sentences;
mod text_faults;

pub use complaints::{Complaint, Given, Reads};
pub use front::{FrontKept, MOST_KEPT};
pub use quoting::{MOST_QUOTED, quoted};
pub use sentences::{NO_MEMORY, NOT_WRITTEN, greeting, keeping, sentence};
