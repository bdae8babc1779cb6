//! The command line of `fifobench`: its subcommands, their options, and the request of its arguments.
#![tactic(auto)]

mod commands;
mod help;
mod laws;
mod options;
mod tasks;

pub use laws::words_without_a_fault_are_a_command;
pub use options::{Condition, DrawOptions, MAX_AROUND, PictureForm, StressOptions};
pub use tasks::{Order, Task, order_in};
