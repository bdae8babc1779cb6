//! Tests of conditions weaker than linearizability. The crate has only tests: in a crate's own tests they would prove
//! that crate a second time.
#![tactic(auto)]

#[cfg(test)]
mod tests;
