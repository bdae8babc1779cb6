//! Tests of the crates that draw tickets, ask queues, keep events in rings, collect them and replay them: the parts
//! of a run of the stress bench. The crate has only tests: in a crate's own tests they would prove that crate a
//! second time.
#![tactic(auto)]

#[cfg(test)]
mod tests;
