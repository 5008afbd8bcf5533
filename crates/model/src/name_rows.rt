//! The marks of one name, and the roles that it generates, as rows of flags.
ghost use Rattle.std.specs.Prelude.{◌≡◌, ◌<◌, ◌&&◌, nat_lt};
ghost use Rattle.model.specs.Given.{given_at, starts_at, implied_by};
ghost use Rattle.model.specs.Rows.{Filled};
ghost use Rattle.rules.specs.Codes.{mark_of};

use crate::codes::mark_of;
use crate::recorded::is_given;
use league::facts::Name;
use league::roles::Mark;
use rules::consequences::Consequences;
use std::array;
use store::contract::Store;

// The code is the place in a row of flags: `array::from_fn` gives a number for each.
/// Whether a recorded fact gives the name the mark with a code.
fn is_given_at<S: Store>(store: &S, name: Name, code: usize) -> bool
    ensures { result ≡ (nat_lt code 128 && given_at (S.Store.means store.now) name code) }
{
    code < 128 && is_given(store, name, mark_of(code as u16))
}

/// The marks that recorded facts give a name.
pub fn given_row<S: Store>(store: &S, name: Name) -> [bool; 192]
    ensures { Filled result 128 (given_at (S.Store.means store.now) name) }
{
    array::from_fn(|code| is_given_at(store, name, code))
}

/// Whether a given mark implies the mark.
fn is_implied(consequences: &Consequences, given: &[bool; 192], mark: Mark) -> bool
    ensures { result ≡ implied_by consequences.now given.now mark }
{
    (0..128).any(|code| given[usize::from(code)] && consequences.implies(mark_of(code), mark))
}

/// The marks that follow from given ones.
pub fn marks_row(consequences: &Consequences, given: &[bool; 192]) -> [bool; 192]
    ensures { Filled result 192 (λ c. implied_by consequences.now given.now (mark_of c)) }
{
    array::from_fn(|code| is_implied(consequences, given, mark_of(code as u16)))
}

/// The roles that a name generates, where it has some marks and some of them are given: those by which it has a
/// partner, and none is given.
pub fn starts_row(marks: &[bool; 192], given: &[bool; 192]) -> [bool; 128]
    ensures { Filled result 128 (starts_at marks.now given.now) }
{
    array::from_fn(|code| marks[64 + code] && !given[64 + code])
}
