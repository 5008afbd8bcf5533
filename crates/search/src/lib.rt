//! Matches of a question in a model: all of them, in order; and which of them are the ends of a match in the
//! unravelled model.
#![tactic(auto)]

mod agreeing;
pub mod filter;
pub mod finder;
mod forcing;
mod grounding;
mod matcher;
mod naming;
mod places;
mod searching;
mod stepping;
mod testing;
pub mod theorems;
