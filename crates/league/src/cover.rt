//! Which variables the atoms of a question have: each answer variable has to be in some atom.
ghost use Rattle.std.specs.Prelude.{◌≡◌};
ghost use Rattle.league.specs.Filling.{mentions, mentioned, covered};

use crate::questions::{Atom, Term};

/// Whether the atom has this variable.
fn has_variable(atom: Atom, variable: u16) -> bool
    ensures { result ≡ mentions variable atom }
{
    let sought = Term::Variable(variable);
    match atom {
        Atom::Is(_, term) => term == sought,
        Atom::Joins(_, from, to) => from == sought || to == sought,
    }
}

/// Whether some atom has this variable.
fn some_has(atoms: &[Atom], variable: u16) -> bool
    ensures { result ≡ mentioned variable atoms.now }
{
    atoms.iter().any(|atom| has_variable(*atom, variable))
}

/// Whether each of the first variables, as many as there are answers, is in some atom.
pub fn covers(atoms: &[Atom], answers: u16) -> bool
    ensures { result ≡ covered answers atoms.now }
{
    (0..answers).all(|variable| some_has(atoms, variable))
}
