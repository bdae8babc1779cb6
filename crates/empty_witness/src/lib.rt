//! Gaps at which the queue may have been empty, and covers of values that leave no such gap.
#![tactic(auto)]

mod answer;
mod cover;
mod gaps;
mod search;
mod spans;

pub use answer::{GapAnswer, Gaps, WitnessAnswer};
pub use search::{
    EmptyAnswer, WindowsAnswer, find_witness, gap_for, sooner_of, windows_at, witness_of,
};
pub use spans::{Span, spans_of};
