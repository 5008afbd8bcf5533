//! The subject: names, kinds and links, the facts, rules and questions over them, and why a call is refused.
#![tactic(auto)]

pub mod arguments;
mod cover;
pub mod facts;
pub mod faults;
mod filling;
mod numbers;
pub mod question;
pub mod questions;
pub mod roles;
pub mod rules;
mod terms;
