//! A question's arguments in turn, each with its place: the first refusal stands.
ghost use Rattle.std.specs.Prelude.{◌≡◌, ◌≤◌, length};
ghost use Rattle.league.specs.Arguments.{arguments_checked, atoms_checked, Computes};

use crate::faults::BookFault;
use crate::questions::{Argument, Atom};

/// Checks the arguments of an atom, the first of which stands at this place.
fn check_atom<F: Fn(Argument, u16) -> Result<(), BookFault>>(
    atom: Atom,
    place: u16,
    check: &F,
) -> Result<(), BookFault>
    requires callable { F.IsAlwaysCallable check.now }
    requires fits { place ≤ 1000 }
    ensures { (checked : _) → Computes (F.post check.now) checked → result ≡ arguments_checked checked place atom }
{
    match atom {
        Atom::Is(kind, term) => {
            check(Argument::Kind(kind), place)?;
            check(Argument::Term(term), place + 1)
        }
        Atom::Joins(role, from, to) => {
            check(Argument::Role(role), place)?;
            check(Argument::Term(from), place + 1)?;
            check(Argument::Term(to), place + 2)
        }
    }
}

/// Checks each argument of the atoms, with its place; the number of answer variables is argument 1, so the first atom
/// begins at 2.
pub fn check_arguments<F: Fn(Argument, u16) -> Result<(), BookFault>>(
    atoms: &[Atom],
    check: F,
) -> Result<(), BookFault>
    requires callable { F.IsAlwaysCallable check }
    requires short { length atoms.now ≤ 16 }
    ensures { (checked : _) → Computes (F.post check) checked → result ≡ atoms_checked checked 2 atoms.now }
{
    let mut place = 2;
    // A `for` and no chain: how far the place goes on depends on the atom, and a chain would keep it in a closure that changes.
    for atom in atoms {
        check_atom(*atom, place, &check)?;
        place += atom.arguments();
    }
    Ok(())
}
