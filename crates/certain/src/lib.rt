//! The register: a store with rules, at first none.
#![tactic(auto)]

pub mod calls;
pub mod register;
