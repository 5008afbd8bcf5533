//! The rules of a register: which were accepted, and the pairs that they use.
#![tactic(auto)]

pub mod consequences;
pub mod flags;
mod mark_graph;
pub mod pair;
mod pairs;
mod ranges;
mod role_graph;
pub mod table;
