//! Roles and marks by their codes.
ghost use Rattle.std.specs.Prelude.{◌≡◌, if◌then◌else◌};
ghost use Rattle.rules.specs.Codes.{role_of, mark_of};
ghost use Rattle.rules.specs.Consequences.{mark_listed};
ghost use Rattle.rules.specs.Marks.{mark_code};

use league::facts::{Kind, Link};
use league::roles::{Mark, Role};

// Functions and no `From`: both types are of another crate, which alone may say so of them.

/// The role with a code.
pub fn role_of(code: u16) -> Role
    ensures { result ≡ role_of code }
{
    let link = Link(code / 2);
    if code % 2 == 0 {
        return Role::Forward(link);
    }
    Role::Backward(link)
}

/// The mark with a code.
pub fn mark_of(code: u16) -> Mark
    ensures { result ≡ mark_of code }
{
    if code < 64 {
        return Mark::Is(Kind(code));
    }
    Mark::Has(role_of(code - 64))
}

// Crate rules has the same test and number inside it: its tables are asked by mark, and the tables here are looked up
// by code.
/// The code of a mark over 64 kinds and 64 links; another has none.
pub fn code_of(mark: Mark) -> Option<usize>
    ensures { result ≡ (if mark_listed mark then Some (mark_code mark) else None) }
{
    match mark {
        Mark::Is(kind) => (kind.0 < 64).then_some(usize::from(kind.0)),
        Mark::Has(role) => (role.link().0 < 64).then_some(64 + role.code() as usize),
    }
}
