//! What questions are made of.
ghost use Rattle.std.specs.Prelude.{◌≡◌};

use crate::facts::{Kind, Name};
use crate::roles::Role;

/// A variable, by its number, or a name. In order the variables come first, and each sort rises by number.
#[derive(Clone, Copy, PartialEq, Eq, PartialOrd, Ord)]
pub enum Term {
    Variable(u16),
    Name(Name),
}

impl Default for Term {
    ghost use Rattle.league.specs.Fresh.{fresh_term};

    ghost is_default = { λ term. term ≡ fresh_term };

    /// The variable v0.
    fn default() -> Term {
        Term::Variable(0)
    }
}

/// A kind with a term, or a role with two.
#[derive(Clone, Copy, PartialEq, Eq)]
pub enum Atom {
    Is(Kind, Term),
    Joins(Role, Term, Term),
}

impl Atom {
    ghost use Rattle.league.specs.Arguments.{arguments_of};

    /// How many arguments the atom has: its kind or role, and its terms.
    pub fn arguments(self) -> u16
        ensures { result ≡ arguments_of self }
    {
        match self {
            Atom::Is(_, _) => 2,
            Atom::Joins(_, _, _) => 3,
        }
    }
}

impl Default for Atom {
    ghost use Rattle.league.specs.Fresh.{fresh_atom};

    ghost is_default = { λ atom. atom ≡ fresh_atom };

    /// The atom of a fresh question: v0 is of kind 0.
    fn default() -> Atom {
        Atom::Is(Kind(0), Term::default())
    }
}

/// An argument of an atom: its kind or its role, or one of its terms.
#[derive(Clone, Copy, PartialEq, Eq)]
pub enum Argument {
    Kind(Kind),
    Role(Role),
    Term(Term),
}
