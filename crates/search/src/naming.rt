//! Whether a question names only what it may name.
ghost use Rattle.std.specs.Prelude.{◌≡◌, ◌≤◌, length};
ghost use Rattle.search.specs.Finding.{names_checked};

use league::arguments::check_arguments;
use league::faults::{BookFault, Place};
use league::questions::{Argument, Atom, Term};

/// The names of all atoms; the number of answer variables is argument 1, so the first atom begins at 2.
pub(crate) fn check_names(names: u16, atoms: &[Atom]) -> Result<(), BookFault>
    requires { length atoms.now ≤ 16 }
    ensures { result ≡ names_checked names 2 atoms.now }
{
    check_arguments(atoms, |argument, place| match argument {
        Argument::Term(Term::Name(name)) if name.0 >= names => Err(BookFault::Name(Place(place))),
        _ => Ok(()),
    })
}
