//! Compares the answers of the sweeps with those of plain scans over all values, on small histories of every kind,
//! and decides one large history. The crate has only tests.
#![tactic(auto)]

#[cfg(test)]
mod tests;
