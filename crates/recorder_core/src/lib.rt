//! The recorder of a run as a pure machine: its state after any list of its atomic steps, in any order.
//!
//! The steps are those of the threads of a recorded run: tickets are drawn, events pushed and drained, rings closed,
//! and the tested queue takes effect or answers. A [`Machine`] takes one step at a time. `specs/Schedule.antt`
//! defines what a list of steps means, without rings and without states, and the functions of `laws` prove facts
//! about every list.
#![tactic(auto)]

mod initial;
mod laws;
mod machine;
mod pending;
mod step;
mod thread;

pub use event_records::{Answer, LEAST_INITIAL_NAME, MAX_INITIAL, MAX_RING, MAX_THREADS, MIN_RING};
pub use initial::are_initial_names;
pub use laws::{
    collected_is_a_prefix, done_collects_all, done_schedules_are_complete, effects_are_accepted,
    honest_schedules_are_legal, nothing_after_close, precedence_as_ticketed,
    recorded_lists_are_complete, recorded_lists_replay,
};
pub use machine::Machine;
pub use pending::{Pending, Request};
pub use step::{Done, Step, StepRefused};
