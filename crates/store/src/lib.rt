//! Stores of facts: what every store does, and two stores over memory that the caller lends.
#![tactic(auto)]

mod bit_store;
pub mod bits;
pub mod contract;
mod record_store;
pub mod records;
