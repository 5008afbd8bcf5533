//! The steps of a question's atoms, as a table over the places of its terms.
ghost use Rattle.std.specs.Prelude.{◌≡◌, ℕ, ◌<◌, ◌||◌};
ghost use Rattle.rules.specs.Flags.{flag};
ghost use Rattle.search.specs.Cells.{place_of};
ghost use Rattle.search.specs.Searching.{last_in};
ghost use Rattle.search.specs.Forcing.{Decides};
ghost use Rattle.search.specs.Stepping.{steps_along, goes_down, DownAt};

use crate::matcher::Matcher;
use league::questions::{Atom, Term};
use league::roles::Role;
use model::model::Model;
use rules::flags::Flags;

impl<'a, M: Model> Matcher<'a, M> {
    /// Flags the pair of the two terms' places, if the first's element steps by the role to the second's.
    fn flag_step(&self, cells: &[u16; 8], role: Role, ends: (Term, Term), down: &mut Flags<8, 8>)
        requires above { place_of ends.0 self.now.terms.now < 8 }
        requires below { place_of ends.1 self.now.terms.now < 8 }
        ensures { (i j : ℕ) → flag down.new.cells i j ≡ (steps_along (M.Model.form self.now.model.now) self.now.terms.now cells.now role ends.0 ends.1 i j || flag down.old.cells i j) }
    {
        let above = self.place_of(ends.0);
        let below = self.place_of(ends.1);
        if self.model.steps(cells[above], cells[below])
            && self.model.steps_by(role, cells[above], cells[below])
        {
            down.set(above, below);
        }
    }

    /// Flags the pairs of places between which the atom's step goes down.
    fn flag_steps(&self, cells: &[u16; 8], atom: Atom, down: &mut Flags<8, 8>)
        requires { last_in self.now.terms.now atom < 8 }
        ensures { (i j : ℕ) → flag down.new.cells i j ≡ (goes_down (M.Model.form self.now.model.now) self.now.terms.now cells.now atom i j || flag down.old.cells i j) }
    {
        if let Atom::Joins(role, from, to) = atom {
            self.flag_step(cells, role, (from, to), down);
            self.flag_step(cells, role.inverse(), (to, from), down);
        }
    }

    /// From which places the atoms' steps go down to which.
    pub(crate) fn down_table(&self, cells: &[u16; 8]) -> Flags<8, 8>
        ensures { (i j : ℕ) → i < 8 → j < 8 → Decides (flag result.cells i j) (DownAt (M.Model.form self.now.model.now) self.now.terms.now self.now.atoms.now cells.now i j) }
    {
        let mut down = Flags::new();
        // Atom by atom, each with two flags at most: asked pair by pair, every atom would look up its places 64 times.
        // A `for` and no `for_each`: its closure would change the table, and the proof would know nothing of it after that.
        for atom in self.atoms {
            self.flag_steps(cells, *atom, &mut down);
        }
        down
    }
}
