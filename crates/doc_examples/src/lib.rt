//! The examples of doc comments, as tests. `tools/lint examples` compares the two line by line. The crate has only
//! tests.
#![tactic(auto)]

#[cfg(test)]
mod tests;
