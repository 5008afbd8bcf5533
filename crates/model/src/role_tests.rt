//! Which roles generate which, and which form loops.
ghost use Rattle.std.specs.Prelude.{◌≡◌};
ghost use Rattle.rules.specs.Codes.{role_of};
ghost use Rattle.model.specs.RoleTests.{told_generates, is_above, above_both, told_loop, told_in_loop};
ghost use Rattle.model.specs.Rows.{some_below, Filled};

use crate::codes::role_of;
use league::roles::{Mark, Role};
use rules::consequences::Consequences;
use std::array;

/// Whether one role generates another: what it leads to has a partner by the other, not the one it was led to from.
pub fn generates(consequences: &Consequences, from: Role, to: Role) -> bool
    ensures { result ≡ told_generates consequences.now from to }
{
    let back = from.inverse();
    consequences.implies(Mark::Has(back), Mark::Has(to)) && to != back
}

// Functions of consequences and two roles, and no methods: the type of consequences is another crate's.
/// Whether the last role is above the first and above the other turned.
fn is_above_both(consequences: &Consequences, role: Role, other: Role, above: Role) -> bool
    ensures { result ≡ is_above consequences.now role other above }
{
    consequences.below(other.inverse(), above) && consequences.below(role, above)
}

/// Whether some role is above the first role and above the other turned.
fn meets_above(consequences: &Consequences, role: Role, other: Role) -> bool
    ensures { result ≡ some_below 128 (above_both consequences.now role other) }
{
    (0..128).any(|code| is_above_both(consequences, role, other, role_of(code)))
}

/// Whether two roles form a loop.
fn forms_loop(consequences: &Consequences, role: Role, other: Role) -> bool
    ensures { result ≡ told_loop consequences.now role other }
{
    let back = role.inverse();
    let other_back = other.inverse();
    role != other_back
        && consequences.implies(Mark::Has(back), Mark::Has(other))
        && consequences.implies(Mark::Has(other_back), Mark::Has(role))
        && meets_above(consequences, role, other)
}

/// The roles that form a loop with a role.
pub fn loop_row(consequences: &Consequences, role: Role) -> [bool; 128]
    ensures { Filled result 128 (λ s. told_loop consequences.now role (role_of s)) }
{
    array::from_fn(|code| forms_loop(consequences, role, role_of(code as u16)))
}
