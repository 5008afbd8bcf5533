//! What a required-partner rule asks for.
use league::facts::Kind;
use league::roles::Role;

/// A partner by the role, of the kind. Rules that ask for the same pair share it.
#[derive(Clone, Copy, PartialEq, Eq)]
pub struct Pair {
    pub role: Role,
    pub kind: Kind,
}
