//! Questions: what is asked of every world that fits.
ghost use Rattle.std.specs.Prelude.{◌≡◌, IsOk};
ghost use Rattle.league.specs.Filling.{filling};
ghost use Rattle.league.specs.Terms.{terms_of};

use crate::questions::{Atom, Term};
use arrayvec::ArrayVec;

// No `impl Model`: callers see a number and a list, which `answers` and `atoms_of` name.
/// A question (a conjunctive query): its atoms, and how many of its variables, from v0 up, a row answers for.
/// Every question is one that filling accepts, and has its terms in order.
#[derive(Drop)]
pub struct Question {
    pub(crate) answers: u16,
    pub(crate) atoms: ArrayVec<Atom, 16>,
    pub(crate) terms: ArrayVec<Term, 8>,
    ghost accepted: { IsOk (filling answers atoms.items) },
    ghost ordered: { terms.items ≡ terms_of atoms.items },
}
