//! What is looked up of names and roles, as tables.
ghost use Rattle.std.specs.Prelude.{◌≡◌, ℕ, ◌<◌, [], slice_index_or};
ghost use Rattle.league.specs.Roles.{code};
ghost use Rattle.rules.specs.Codes.{role_of};
ghost use Rattle.rules.specs.Flags.{flag};
ghost use Rattle.model.specs.Given.{RowsOf};
ghost use Rattle.model.specs.Recorded.{name_of};
ghost use Rattle.model.specs.RoleTests.{told_loop, told_in_loop};
ghost use Rattle.model.specs.Rows.{some_below, Filled, Stacked, flag_at};

use crate::codes::role_of;
use crate::name_rows::{given_row, marks_row, starts_row};
use crate::role_tests::loop_row;
use league::facts::Name;
use league::roles::Role;
use rules::consequences::Consequences;
use rules::flags::Flags;
use std::array;
use store::contract::Store;

// Two tables and no table of rows with two parts: the generating roles are made of the starts alone.
/// Of each name, the marks that it has and the roles that it generates.
#[derive(Clone, Copy)]
pub struct NameTables {
    pub(crate) marks: Flags<1024, 192>,
    pub(crate) starts: Flags<1024, 128>,
}

impl NameTables {
    /// The rows of every name of a store.
    pub fn of<S: Store>(store: &S, consequences: &Consequences) -> NameTables
        ensures { (a : ℕ) → a < (S.Store.means store.now).names → RowsOf (S.Store.means store.now) consequences.now (name_of a) (slice_index_or result.marks.cells a []) (slice_index_or result.starts.cells a []) }
    {
        let mut marks = Flags::new();
        let mut starts = Flags::new();
        // A loop and no chain: each turn puts a row into each of two tables, of what it looked up once.
        for name in 0..store.names() {
            let given = given_row(store, Name(name));
            let row = marks_row(consequences, &given);
            let place = usize::from(name);
            marks.put(place, row);
            starts.put(place, starts_row(&row, &given));
        }
        NameTables { marks, starts }
    }
}

/// Which roles form loops with which, and which are in some loop.
#[derive(Clone, Copy)]
pub struct LoopTables {
    pub(crate) pairs: Flags<128, 128>,
    pub(crate) members: [bool; 128],
}

// The code is the row of a table: `array::from_fn` gives a number for each.
/// Whether the table has a loop of the role with a code and some role.
fn is_member(pairs: &Flags<128, 128>, code: usize) -> bool
    ensures { result ≡ some_below 128 (flag pairs.now.cells code) }
{
    (0..128).any(|other| pairs.is_set(code, other))
}

impl LoopTables {
    /// The loops of all roles.
    pub fn of(consequences: &Consequences) -> LoopTables
        ensures pairs { Stacked result.pairs.cells 128 128 (λ i j. told_loop consequences.now (role_of i) (role_of j)) }
        ensures members { Filled result.members 128 (λ i. told_in_loop consequences.now (role_of i)) }
    {
        let mut pairs = Flags::new();
        // A loop: a table made of rows by `array::from_fn` was tried, and the proof of its width did not close.
        for code in 0..128 {
            pairs.put(usize::from(code), loop_row(consequences, role_of(code)));
        }
        let members = array::from_fn(|code| is_member(&pairs, code));
        LoopTables { pairs, members }
    }
}

/// Whether the flag of a role is set; a role past the row has none.
pub fn is_flagged(row: &[bool; 128], role: Role) -> bool
    ensures { result ≡ flag_at 128 row.now (code role) }
{
    // A test and an index: `get` with `is_some_and` would say the same by a closure.
    let code = role.code() as usize;
    code < 128 && row[code]
}
