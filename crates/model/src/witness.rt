//! What a number stands for: a name, or a witness of a role.
ghost use Rattle.std.specs.Prelude.{◌<◌};

use league::facts::Name;
use league::roles::Role;

/// A witness of a role, told apart from the role's others by an index.
#[derive(Clone, Copy)]
pub struct Witness {
    pub role: Role,
    pub index: u16,
    ghost few: { index < 3 },
}

/// A name or a witness.
#[derive(Clone, Copy)]
pub enum Element {
    Name(Name),
    Witness(Witness),
}
