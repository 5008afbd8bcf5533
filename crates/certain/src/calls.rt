//! The calls that a register takes.
use league::facts::Fact;
use league::rules::Rule;

/// One call on a register.
#[derive(Clone, Copy, PartialEq, Eq)]
pub enum Call {
    EnterFact(Fact),
    EnterRule(Rule),
}
