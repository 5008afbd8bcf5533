//! The plain model: names and recorded facts, no rules and no steps.
ghost use Rattle.std.specs.Prelude.{◌≡◌};
ghost use Rattle.model.specs.Plain.{plain_shape, plain_form};

// By another name: the language has a trait `Model` too, and an impl's trait is told by its name.
use crate::model::Model as SteppedModel;
use crate::recorded::fact_of;
use crate::structure::Structure;
use league::facts::{Fact, Kind, Name};
use league::roles::Role;
use store::contract::Store;

/// What a store holds, read as a model.
#[derive(Drop)]
pub struct PlainModel<'a, S: Store> {
    store: &'a S,
}

impl<'a, S: Store> PlainModel<'a, S> {
    /// The plain model of the store.
    pub fn new(store: &'a S) -> PlainModel<'a, S>
        ensures { result.store.now ≡ store.now }
    {
        PlainModel { store }
    }
}

impl<'a, S: Store> Structure for PlainModel<'a, S> {
    ghost shape = { λ m. plain_shape (S.Store.means m.store.now) };

    fn size(&self) -> u16 {
        self.store.names()
    }

    fn present(&self, element: u16) -> bool {
        element < self.size()
    }

    fn nameable(&self) -> u16 {
        self.size()
    }

    fn of_kind(&self, kind: Kind, element: u16) -> bool {
        self.store.has(Fact::Is(kind, Name(element)))
    }

    fn joins(&self, role: Role, from: u16, to: u16) -> bool {
        self.store.has(fact_of(role, Name(from), Name(to)))
    }
}

impl<'a, S: Store> SteppedModel for PlainModel<'a, S> {
    ghost form = { λ m. plain_form (S.Store.means m.store.now) };

    fn names(&self) -> u16 {
        self.nameable()
    }

    fn steps(&self, _from: u16, _to: u16) -> bool {
        false
    }

    fn steps_by(&self, _role: Role, from: u16, to: u16) -> bool {
        self.steps(from, to)
    }
}
