//! What the canonical model's tables tell of elements, by number.
ghost use Rattle.std.specs.Prelude.{◌≡◌};
ghost use Rattle.model.specs.Decoded.{Decodes};
ghost use Rattle.model.specs.LookedUp.{tabled};
ghost use Rattle.model.specs.Tabled.{has_witness, present_at, turns, index_after, steps_from_name, steps_from_witness, step_at, by_at, kind_at};

use crate::canonical_tables::CanonicalTables;
use crate::codes::{code_of, role_of};
use crate::role_tests::generates;
use crate::tables::is_flagged;
use crate::witness::{Element, Witness};
use league::facts::{Kind, Name};
use league::roles::{Mark, Role};

impl CanonicalTables<'_> {
    /// Whether the role is generating.
    pub fn is_generating(&self, role: Role) -> bool
        ensures { result ≡ (tabled self.now).generating role }
    {
        is_flagged(&self.generating, role)
    }

    /// Whether the role is in a loop.
    fn is_in_loop(&self, role: Role) -> bool
        ensures { result ≡ (tabled self.now).in_loop role }
    {
        is_flagged(&self.loops.members, role)
    }

    /// Whether a step from the first role's witness to the second's turns to the next index.
    fn turns(&self, from: Role, to: Role) -> bool
        ensures { result ≡ turns (tabled self.now) from to }
    {
        let from_code = from.code();
        let to_code = to.code();
        self.loops
            .pairs
            .is_set(to_code as usize, from_code as usize)
            && from_code <= to_code
    }

    /// The index at which a step from a role's witness to another role ends.
    fn index_after(&self, from: Witness, to: Role) -> u16
        ensures { result ≡ index_after (tabled self.now) from.role from.index to }
    {
        if !self.is_in_loop(to) {
            return 0;
        }
        if self.turns(from.role, to) {
            return (from.index + 1) % 3;
        }
        from.index
    }

    /// The element with a number.
    fn element(&self, number: u16) -> Element
        ensures { Decodes (tabled self.now) number result }
    {
        if number < self.names {
            return Element::Name(Name(number));
        }
        let place = number - self.names;
        Element::Witness(Witness {
            role: role_of(place / 3),
            index: place % 3,
        })
    }

    /// Whether the role has a witness with the index.
    fn has_witness(&self, witness: Witness) -> bool
        ensures { result ≡ has_witness (tabled self.now) witness.role witness.index }
    {
        self.is_generating(witness.role) && (witness.index == 0 || self.is_in_loop(witness.role))
    }

    /// Whether the number has an element.
    pub fn is_present(&self, number: u16) -> bool
        ensures { result ≡ present_at (tabled self.now) number }
    {
        match self.element(number) {
            Element::Name(_) => true,
            Element::Witness(witness) => self.has_witness(witness),
        }
    }

    /// Whether a name steps to a witness.
    fn name_steps(&self, name: Name, to: Witness) -> bool
        ensures { result ≡ steps_from_name (tabled self.now) name.0 to.role to.index }
    {
        let code = to.role.code() as usize;
        self.rows.starts.is_set(usize::from(name.0), code) && to.index == 0
    }

    /// Whether a role has a witness, and that steps to another.
    fn witness_steps(&self, from: Witness, to: Witness) -> bool
        ensures { result ≡ steps_from_witness (tabled self.now) from.role from.index to.role to.index }
    {
        self.has_witness(from)
            && generates(self.consequences, from.role, to.role)
            && to.index == self.index_after(from, to.role)
    }

    /// Whether one element steps to another.
    pub fn steps(&self, from: u16, to: u16) -> bool
        ensures { result ≡ step_at (tabled self.now) from to }
    {
        match (self.element(from), self.element(to)) {
            (_, Element::Name(_)) => false,
            (Element::Name(name), Element::Witness(witness)) => self.name_steps(name, witness),
            (Element::Witness(first), Element::Witness(second)) => {
                self.witness_steps(first, second)
            }
        }
    }

    /// Whether one element steps to another by the role.
    pub fn steps_by(&self, role: Role, from: u16, to: u16) -> bool
        ensures { result ≡ by_at (tabled self.now) role from to }
    {
        match self.element(to) {
            Element::Name(_) => false,
            Element::Witness(witness) => {
                self.steps(from, to) && self.consequences.below(witness.role, role)
            }
        }
    }

    /// Whether a name has the mark.
    pub fn name_has(&self, mark: Mark, name: Name) -> bool
        ensures { result ≡ (tabled self.now).marks name.0 mark }
    {
        // A match: `is_some_and` with a closure was tried, and the proof did not close.
        match code_of(mark) {
            Some(code) => self.rows.marks.is_set(usize::from(name.0), code),
            None => false,
        }
    }

    /// Whether an element is of the kind.
    pub fn is_of(&self, kind: Kind, number: u16) -> bool
        ensures { result ≡ kind_at (tabled self.now) kind number }
    {
        match self.element(number) {
            Element::Name(name) => self.name_has(Mark::Is(kind), name),
            Element::Witness(witness) => {
                let back = Mark::Has(witness.role.inverse());
                self.has_witness(witness) && self.consequences.implies(back, Mark::Is(kind))
            }
        }
    }
}
