//! Roles and marks: a link read from one of its sides, and what an entry can have.
ghost use Rattle.std.specs.Prelude.{◌≡◌};
ghost use Rattle.league.specs.Roles.{code as code_of, inverse as inverse_of, link_of};

use crate::facts::{Kind, Link};

/// A link read forward or backward (a role or an inverse role of description logic).
#[derive(Clone, Copy, PartialEq, Eq)]
pub enum Role {
    Forward(Link),
    Backward(Link),
}

impl Role {
    /// Twice the link's number, plus one for backward.
    // A number and no enum: it is the row or the column of the role in a table of all roles.
    pub fn code(self) -> u32
        ensures { result ≡ code_of self }
    {
        match self {
            Role::Forward(link) => 2 * u32::from(link.0),
            Role::Backward(link) => 2 * u32::from(link.0) + 1,
        }
    }

    /// The link that the role reads.
    pub fn link(self) -> Link
        ensures { result ≡ link_of self }
    {
        match self {
            Role::Forward(link) | Role::Backward(link) => link,
        }
    }

    /// The same link, read from the other side.
    pub fn inverse(self) -> Role
        ensures { result ≡ inverse_of self }
    {
        match self {
            Role::Forward(link) => Role::Backward(link),
            Role::Backward(link) => Role::Forward(link),
        }
    }
}

/// A kind, or having some partner by a role (a basic concept of description logic).
#[derive(Clone, Copy, PartialEq, Eq)]
pub enum Mark {
    Is(Kind),
    Has(Role),
}
