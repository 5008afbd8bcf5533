//! Lines of text: what a line means, what is printed of each, and the run over a whole text.
#![tactic(auto)]

pub mod faults;
pub mod fields;
pub mod forms;
pub mod page;
pub mod pieces;
pub mod reader;
pub mod render;
pub mod runs;
pub mod scan;
pub mod tokens;
