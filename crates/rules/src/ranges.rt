//! Ranges of numbers: those in a rule, kinds up to 63 and links up to 31, those that have a place in the tables, and the code of
//! a mark.
ghost use Rattle.std.specs.Prelude.{◌≡◌, ◌<◌, true, is_ok};
ghost use Rattle.std.specs.Result.{result_err};
ghost use Rattle.rules.specs.Consequences.{role_listed, mark_listed};
ghost use Rattle.rules.specs.Marks.{mark_code, mark_within};
ghost use Rattle.rules.specs.RuleSet.{kind_fault, role_fault, mark_fault, rule_fault, rule_within};

use league::facts::Kind;
use league::faults::{BookFault, Place};
use league::roles::{Mark, Role};
use league::rules::Rule;

// Two tests of one shape: a common one would take number, bound and fault at each of its five calls, where these take the
// argument. Questions have tests with these bounds in crate `league`: there they are arms of one walk over arguments, and
// here each form of rule has its own arguments.
/// Refuses a kind that no rule may name, as the argument at a place.
fn check_kind(place: u16, kind: Kind) -> Result<(), BookFault>
    ensures { result_err result ≡ kind_fault place kind }
{
    if kind.0 > 63 {
        return Err(BookFault::Kind(Place(place)));
    }
    Ok(())
}

/// Refuses a role that no rule may name.
fn check_role(place: u16, role: Role) -> Result<(), BookFault>
    ensures { result_err result ≡ role_fault place role }
{
    if role.link().0 > 31 {
        return Err(BookFault::Link(Place(place)));
    }
    Ok(())
}

/// Refuses a mark that no rule may name.
fn check_mark(place: u16, mark: Mark) -> Result<(), BookFault>
    ensures { result_err result ≡ mark_fault place mark }
{
    match mark {
        Mark::Is(kind) => check_kind(place, kind),
        Mark::Has(role) => check_role(place, role),
    }
}

/// Refuses a rule by the first of its arguments, from the left, that is out of range.
pub fn check_rule(rule: Rule) -> Result<(), BookFault>
    ensures refuses { result_err result ≡ rule_fault rule }
    ensures within { is_ok result ≡ rule_within rule }
{
    match rule {
        Rule::Inclusion(first, second) | Rule::Exclusion(first, second) => {
            check_mark(1, first)?;
            check_mark(2, second)
        }
        Rule::Required(mark, role, kind) => {
            check_mark(1, mark)?;
            check_role(2, role)?;
            check_kind(3, kind)
        }
        Rule::RoleInclusion(sub, sup) => {
            check_role(1, sub)?;
            check_role(2, sup)
        }
    }
}

/// Whether a role has a place in the tables of consequences.
pub fn is_role_listed(role: Role) -> bool
    ensures { result ≡ role_listed role }
{
    role.link().0 < 64
}

/// Whether a mark has a place in the tables of consequences.
pub fn is_mark_listed(mark: Mark) -> bool
    ensures { result ≡ mark_listed mark }
{
    match mark {
        Mark::Is(kind) => kind.0 < 64,
        Mark::Has(role) => is_role_listed(role),
    }
}

// A number, as the code of a role.
/// The row or column of a mark in a table over marks.
pub fn mark_code(mark: Mark) -> usize
    ensures tells { result ≡ mark_code mark }
    ensures below { mark_within mark ≡ true → result < 128 }
{
    match mark {
        Mark::Is(kind) => usize::from(kind.0),
        Mark::Has(role) => 64 + role.code() as usize,
    }
}
