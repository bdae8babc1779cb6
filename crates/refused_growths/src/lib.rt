//! Calls and runs in which a growth is refused. The crate has only tests.
//!
//! Each test repeats its calls until none of them is out of memory, so it also compares the answer with ample memory,
//! and at most one growth is refused. `tests/faults/tests` runs each test with its first growth refused, with its
//! second, and so on until none is.
#![tactic(auto)]

#[cfg(test)]
mod deciding;
#[cfg(test)]
mod histories;
#[cfg(test)]
mod rounds;
#[cfg(test)]
mod running;
