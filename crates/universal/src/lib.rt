//! Why the canonical model answers for every world that fits.
#![tactic(auto)]

pub mod theorem;
