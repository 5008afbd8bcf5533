//! A structure: what a question can be matched in.
ghost use Rattle.std.specs.Prelude.{◌≡◌};
ghost use Rattle.model.specs.Structures.{Shape};

use league::facts::Kind;
use league::roles::Role;

/// Numbered elements with kinds, joined by roles. Any number may be asked about.
pub trait Structure {
    ghost shape: { Self → Shape };

    /// How many numbers there are for elements: every present element is below this number.
    fn size(&self) -> u16
        ensures { result ≡ (shape self.now).size };

    /// Whether the number has an element.
    fn present(&self, element: u16) -> bool
        ensures { result ≡ (shape self.now).present element };

    /// How many elements, from 0 up, a question may name.
    fn nameable(&self) -> u16
        ensures { result ≡ (shape self.now).nameable };

    /// Whether the element is of the kind.
    fn of_kind(&self, kind: Kind, element: u16) -> bool
        ensures { result ≡ (shape self.now).kind kind element };

    // A role and two elements stand together here and in each impl: they are the arguments of a relation, and no value.
    /// Whether the role joins the first element to the second.
    fn joins(&self, role: Role, from: u16, to: u16) -> bool
        ensures { result ≡ (shape self.now).joins role from to };
}
