//! Tests of the program that no file of cases can contain: readers and writers that fail, plans of runs, and queues
//! that are not built in. The crate has only tests: in a crate's own tests they would prove that crate a second time.
#![tactic(auto)]

#[cfg(test)]
mod tests;
