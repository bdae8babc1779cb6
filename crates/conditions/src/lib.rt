//! Conditions weaker than linearizability, judged by selections of a history.
#![tactic(auto)]

mod buckets;
mod laws;
mod local;
mod moved;
mod part;
mod producer;
mod producers;
mod ranks;
mod search;
mod selections;
mod sharing;
mod verifying;
mod weak;

pub use laws::{
    conditions_are_weaker, evidence_is_a_true_local_claim, one_verdict_under_a_condition,
    shrunk_selections_are_minimal, true_claims_decide_conditions, violations_are_of_the_whole,
};
pub use local::{LocalOrder, LocalOrders, LocalVerdict, decide_local, decide_local_by, selection};
pub use producer::{Emptiness, Producer};
pub use verifying::{verify_local, verify_weakly_empty};
pub use weak::{decide_weakly_empty, decide_weakly_empty_by, without_empties};
