//! Tests of the crates that form histories, match their values, search, decide, claim, verify and shrink. The crate
//! has only tests: in a crate's own tests they would prove that crate a second time.
#![tactic(auto)]

#[cfg(test)]
mod tests;
