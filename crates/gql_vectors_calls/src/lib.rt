//! Each call that takes memory once, with ample memory, and each generic call or impl through its bound. No other crate
//! stands on it.
#![tactic(auto)]

#[cfg(test)]
mod asserting;
#[cfg(test)]
mod bound_tests;
#[cfg(test)]
mod builders;
#[cfg(test)]
mod call_tests;
#[cfg(test)]
mod stream_tests;
