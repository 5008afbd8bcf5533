//! A model: a structure that also tells names and steps.
ghost use Rattle.std.specs.Prelude.{◌≡◌};
ghost use Rattle.model.specs.Structures.{Form, Lawful};

use crate::structure::Structure;
use league::roles::Role;

/// A structure whose elements are names or are reached from names by steps.
pub trait Model: Structure {
    ghost form: { Self → Form };

    /// How many names there are: the elements below this number. The call also promises the laws that tie
    /// kinds, joins and presence to names and steps.
    fn names(&self) -> u16
        ensures value { result ≡ (form self.now).names }
        ensures lawful { Lawful (Self.shape self.now) (form self.now) };

    /// Whether the first element steps to the second.
    fn steps(&self, from: u16, to: u16) -> bool
        ensures { result ≡ (form self.now).step from to };

    /// Whether the step from the first element to the second is by the role.
    fn steps_by(&self, role: Role, from: u16, to: u16) -> bool
        ensures { result ≡ (form self.now).by role from to };
}
