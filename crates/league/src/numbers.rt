//! The numbers of a question's atoms, from left to right: the first that is out of range refuses the question.
ghost use Rattle.std.specs.Prelude.{◌≡◌, ◌≤◌, length};
ghost use Rattle.league.specs.Filling.{term_checked, number_checked, numbers_checked};

use crate::arguments::check_arguments;
use crate::faults::{BookFault, Place};
use crate::questions::{Argument, Atom, Term};

/// Whether the term at this place is one of v0 to v7 or a name that some store may have.
fn check_term(term: Term, place: u16) -> Result<(), BookFault>
    ensures { result ≡ term_checked place term }
{
    match term {
        Term::Variable(variable) if variable > 7 => Err(BookFault::Variable(Place(place))),
        Term::Name(name) if name.0 > 1023 => Err(BookFault::Name(Place(place))),
        _ => Ok(()),
    }
}

/// Whether the number of the argument at this place is in range.
fn check_number(argument: Argument, place: u16) -> Result<(), BookFault>
    ensures { result ≡ number_checked place argument }
{
    match argument {
        Argument::Kind(kind) if kind.0 > 63 => Err(BookFault::Kind(Place(place))),
        Argument::Role(role) if role.link().0 > 31 => Err(BookFault::Link(Place(place))),
        Argument::Term(term) => check_term(term, place),
        _ => Ok(()),
    }
}

/// The numbers of all atoms; the number of answer variables is argument 1, so the first atom begins at 2.
pub fn check_numbers(atoms: &[Atom]) -> Result<(), BookFault>
    requires { length atoms.now ≤ 16 }
    ensures { result ≡ numbers_checked 2 atoms.now }
{
    check_arguments(atoms, check_number)
}
