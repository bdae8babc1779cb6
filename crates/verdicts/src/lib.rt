//! Decides whether a history is linearizable, with evidence for the answer, and shrinks a history to its violation.
#![tactic(auto)]

mod claimed_order;
mod claimed_violation;
mod decision;
mod laws;
mod lookup;
mod selection;
mod shrinking;
mod verifying;

pub use claims::{
    ClaimLine, ClaimLines, Claimed, LinePlace, Lines, Order, Verdict, ViolationKind, claim,
};
pub use decision::{decide, decide_by, decide_par};
pub use history_merge::{History, HistoryFault, OpId, OpKind, Operation, history};
pub use laws::{
    a_true_claim_decides, a_verdict_has_few_lines, evidence_is_a_true_claim,
    lines_tell_a_violation, no_legal_order, one_finding, one_verdict, violations_are_all,
};
pub use shrinking::shrink;
pub use verifying::verify;
