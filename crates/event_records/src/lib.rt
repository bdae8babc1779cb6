//! The events of a recorded run: which operation a thread called, how it returned, and when. Also the questions to a
//! queue and its answers, which are recorded as events and can each be used only once.
#![tactic(auto)]

mod answers;
mod event;
mod kind;
mod limits;
mod lists;
mod noted;
mod owned_slice;
mod questions;
mod thread_no;
mod turns;

pub use answers::{AnsweredDeq, AnsweredEnq};
pub use event::{Event, What};
pub use kind::{Answer, Kind};
pub use limits::{
    LEAST_INITIAL_NAME, MAX_CLAIM_LINES, MAX_EVENTS, MAX_INITIAL, MAX_OPERATIONS, MAX_RING,
    MAX_SEED, MAX_STEPS, MAX_STRESS_INITIAL, MAX_THREAD, MAX_THREAD_OPERATIONS, MAX_THREADS,
    MAX_TICKET, MAX_TIME, MAX_WORKERS, MIN_RING, NAMES_OF_A_THREAD, ORIGIN,
};
pub use lists::Lists;
pub use noted::Noted;
pub use owned_slice::OwnedSlice;
pub use questions::{AskDeq, AskEnq, Namer};
pub use thread_no::ThreadNo;
pub use turns::alternates;
