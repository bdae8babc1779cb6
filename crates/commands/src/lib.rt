//! The commands over any reader, writer and shelf of queues: the program without its `main`.
#![tactic(auto)]

mod args;
mod command;
mod complete;
mod draw;
mod faults;
mod histories;
mod input;
mod judging;
mod laws;
mod operations;
mod outcome;
mod pipes;
mod print;
mod shelf;
mod show;
mod shrink;
mod sim;
mod stderr;
mod stress;
mod texts;

pub use args::{StartFault, args_of, print_start_fault};
pub use command::{Exit, run_command, run_over};
pub use laws::{
    completion_decides, conversion_keeps_answers, every_answer_is_evidence,
    honest_schedules_get_a_yes, one_answer, runs_of_proved_queues_are_linearizable,
};
pub use outcome::{Fault, Outcome, Report};
pub use print::status_of;
pub use shelf::{BuiltIn, built_ins};
pub use stderr::Terminals;
pub use stress::{NamedQueue, TRIES};
pub use texts::{
    check_text, complete_text, draw_text, judge_gathered, shrink_text, stats_text, text_of_outcome,
    verify_text,
};
