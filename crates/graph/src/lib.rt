//! Graphs: which nodes paths of edges lead to.
#![tactic(auto)]

pub mod contract;
pub mod rows;
pub mod search;
