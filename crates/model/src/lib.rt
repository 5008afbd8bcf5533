//! Structures of numbered elements, in which a question is matched, and models: structures whose elements
//! are names or are reached from names by steps.
#![tactic(auto)]

mod building;
pub mod canonical;
mod canonical_model;
mod canonical_tables;
mod clash;
mod codes;
mod elements;
mod generating;
pub mod model;
mod name_rows;
pub mod plain;
mod recorded;
mod role_tests;
pub mod structure;
mod tables;
mod witness;
