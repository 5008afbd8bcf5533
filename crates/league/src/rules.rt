//! Rules: what holds of every entry, named or not.
use crate::facts::Kind;
use crate::roles::{Mark, Role};

/// A rule of a league.
#[derive(Clone, Copy, PartialEq, Eq)]
pub enum Rule {
    /// Whatever has the first mark has the second.
    Inclusion(Mark, Mark),
    /// Nothing has both marks. With the marks exchanged it is the same rule.
    Exclusion(Mark, Mark),
    /// Whatever has the mark has a partner by the role, of the kind.
    Required(Mark, Role, Kind),
    /// What the first role joins, the second joins. With both roles turned it is the same rule.
    RoleInclusion(Role, Role),
}
