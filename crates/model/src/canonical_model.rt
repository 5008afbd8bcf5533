//! What the canonical model tells of its elements.
ghost use Rattle.std.specs.Prelude.{◌≡◌};
ghost use Rattle.model.specs.LookedUp.{tabled};
ghost use Rattle.model.specs.Tabled.{joined_by, names_at, tabled_shape, tabled_form};

use crate::canonical::CanonicalModel;
use crate::codes::role_of;
// By another name: the language has a trait `Model` too, and an impl's trait is told by its name.
use crate::model::Model as SteppedModel;
use crate::recorded::fact_of;
use crate::structure::Structure;
use league::facts::{Kind, Name};
use league::roles::Role;
use store::contract::Store;

impl<'a, S: Store> CanonicalModel<'a, S> {
    /// Whether a link fact joins the names by the narrower role, and that is below the role.
    fn is_joined_by(&self, role: Role, from: Name, to: Name, narrower: Role) -> bool
        ensures { result ≡ joined_by (tabled self.now.tables) (S.Store.means self.now.store.now).facts role from.0 to.0 narrower }
    {
        self.tables.consequences.below(narrower, role)
            && self.store.has(fact_of(narrower, from, to))
    }

    /// Whether a link fact joins the names by some role below the role.
    fn are_joined(&self, role: Role, from: Name, to: Name) -> bool
        ensures { result ≡ names_at (tabled self.now.tables) (S.Store.means self.now.store.now).facts role from.0 to.0 }
    {
        (0..64).any(|code| self.is_joined_by(role, from, to, role_of(code)))
    }
}

impl<'a, S: Store> Structure for CanonicalModel<'a, S> {
    ghost shape = { λ m. tabled_shape (tabled m.tables) (S.Store.means m.store.now).facts };

    fn size(&self) -> u16 {
        self.nameable() + 384
    }

    fn present(&self, element: u16) -> bool {
        self.tables.is_present(element)
    }

    fn nameable(&self) -> u16 {
        self.tables.names
    }

    fn of_kind(&self, kind: Kind, element: u16) -> bool {
        self.tables.is_of(kind, element)
    }

    fn joins(&self, role: Role, from: u16, to: u16) -> bool {
        if from < self.nameable() && to < self.nameable() {
            return self.are_joined(role, Name(from), Name(to));
        }
        self.steps_by(role, from, to) || self.steps_by(role.inverse(), to, from)
    }
}

impl<'a, S: Store> SteppedModel for CanonicalModel<'a, S> {
    ghost form = { λ m. tabled_form (tabled m.tables) };

    fn names(&self) -> u16 {
        self.nameable()
    }

    fn steps(&self, from: u16, to: u16) -> bool {
        self.tables.steps(from, to)
    }

    fn steps_by(&self, role: Role, from: u16, to: u16) -> bool {
        self.tables.steps_by(role, from, to)
    }
}
