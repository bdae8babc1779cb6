//! Plays a schedule of the recorder's atomic steps on the pure machine of `recorder_core`.
#![tactic(auto)]

mod playing;

pub use playing::{Ending, Rejection, Rejections, Simulation, simulate};
