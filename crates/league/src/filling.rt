//! Filling a question, and reading its parts.
ghost use Rattle.std.specs.Prelude.{◌≡◌, [], ◌∷◌, length, Ok};
ghost use Rattle.league.specs.Filling.{filling};
ghost use Rattle.league.specs.Proper.{Proper};
ghost use Rattle.league.specs.Terms.{terms_of, TermsInOrder};
ghost use Rattle.league.specs.Asked.{atoms_of, Filled};
ghost use Rattle.league.specs.Fresh.{fresh_atom};

use crate::cover::covers;
use crate::faults::BookFault;
use crate::numbers::check_numbers;
use crate::question::Question;
use crate::questions::{Atom, Term};
use crate::terms::gather;
use arrayvec::ArrayVec;

impl Question {
    /// A fresh question: whether anything is of kind 0.
    pub fn new() -> Question
        ensures answers { result.answers ≡ 0 }
        ensures atoms { atoms_of result ≡ fresh_atom ∷ [] }
    {
        let mut atoms = ArrayVec::new();
        atoms.push(Atom::default());
        let mut terms = ArrayVec::new();
        terms.push(Term::default());
        Question {
            answers: 0,
            atoms,
            terms,
        }
    }

    /// Takes these atoms and this number of answer variables, if none of the checks refuses them.
    fn replace(&mut self, answers: u16, atoms: &[Atom]) -> Result<(), BookFault>
        ensures result { result ≡ filling answers atoms.now }
        ensures question { Filled answers atoms.now self.old self.new result }
    {
        if answers > 4 || atoms.is_empty() {
            return Err(BookFault::Answers);
        }
        if atoms.len() > 16 {
            return Err(BookFault::Size);
        }
        check_numbers(atoms)?;
        let terms = gather(atoms)?;
        if !covers(atoms, answers) {
            return Err(BookFault::Answers);
        }
        // Part by part and last of all: what is refused is not copied, and no question is moved as a whole.
        let mut filled = ArrayVec::new();
        filled
            .try_extend_from_slice(atoms)
            .map_err(|_| BookFault::Size)?;
        self.answers = answers;
        self.atoms = filled;
        self.terms = terms;
        Ok(())
    }

    // `replace` makes the change; what holds of a proper question follows from what that promises alone.
    /// Takes these atoms and this number of answer variables in place of the question's own, or refuses and keeps its own.
    /// A refusal counts the number of answer variables as argument 1, then the arguments of the atoms.
    pub fn fill(&mut self, answers: u16, atoms: &[Atom]) -> Result<(), BookFault>
        ensures result { result ≡ filling answers atoms.now }
        ensures question { Filled answers atoms.now self.old self.new result }
        ensures proper { Proper answers atoms.now → result ≡ Ok tt }
    {
        self.replace(answers, atoms)
    }

    /// How many variables, from v0 up, a row answers for.
    pub fn answers(&self) -> u16
        ensures { result ≡ self.now.answers }
    {
        self.answers
    }

    /// The atoms, in the order in which they were filled in: one to sixteen, in range, with every answer variable.
    pub fn atoms(&self) -> &[Atom]
        ensures own { result.now ≡ atoms_of self.now }
        ensures proper { Proper self.now.answers (atoms_of self.now) }
    {
        self.atoms.as_slice()
    }

    /// The terms of the atoms, each once: variables rising, then names rising.
    pub fn terms(&self) -> &[Term]
        ensures own { result.now ≡ terms_of (atoms_of self.now) }
        ensures ordered { TermsInOrder (atoms_of self.now) (terms_of (atoms_of self.now)) }
    {
        self.terms.as_slice()
    }

    /// How many terms there are.
    pub fn width(&self) -> usize
        ensures { result ≡ length (terms_of (atoms_of self.now)) }
    {
        self.terms.len()
    }
}
