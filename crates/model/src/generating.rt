//! The generating roles: those that a name generates, and those that a generating role does.
ghost use Rattle.std.specs.Prelude.{◌≡◌};
ghost use Rattle.model.specs.RoleTests.{generates_edge, GeneratingRow};
ghost use Rattle.model.specs.Rows.{some_below, Filled, flag_in};

use crate::codes::role_of;
use crate::role_tests::generates;
use graph::contract::Graph;
use graph::search::reach;
use rules::consequences::Consequences;
use rules::flags::Flags;
use std::array;

/// The roles by code, with an edge from each to those that it generates.
#[derive(Clone, Copy)]
pub struct RoleGraph<'a> {
    consequences: &'a Consequences,
}

// Codes and no roles: nodes of a graph are numbers.
/// Whether the role with a code generates another.
fn has_edge(consequences: &Consequences, from: usize, to: usize) -> bool
    ensures { result ≡ generates_edge consequences.now from to }
{
    from < 128 && to < 128 && generates(consequences, role_of(from as u16), role_of(to as u16))
}

impl Graph for RoleGraph<'_> {
    ghost edge = { λ g u s. generates_edge g.consequences.now u s };

    fn add_successors(&self, node: usize, set: &mut [bool]) {
        for (code, flag) in set.iter_mut().enumerate() {
            *flag |= has_edge(self.consequences, node, code);
        }
    }
}

// The code is the column of a table: every column is asked for, by its number.
/// Whether some name generates the role with a code.
fn is_started(starts: &Flags<1024, 128>, names: u16, code: usize) -> bool
    ensures { result ≡ some_below names (λ a. flag_in 1024 128 starts.now.cells a code) }
{
    (0..names).any(|name| starts.is_set(usize::from(name), code))
}

// The starts, and how many of their rows count: the tables that hold both are made after these rows.
/// The roles that some name generates.
fn start_row(starts: &Flags<1024, 128>, names: u16) -> [bool; 128]
    ensures { Filled result 128 (λ c. some_below names (λ a. flag_in 1024 128 starts.now.cells a c)) }
{
    array::from_fn(|code| is_started(starts, names, code))
}

/// The generating roles.
pub fn generating_row(
    consequences: &Consequences,
    starts: &Flags<1024, 128>,
    names: u16,
) -> [bool; 128]
    ensures { GeneratingRow consequences.now starts.now.cells names result }
{
    let mut row = start_row(starts, names);
    reach(&RoleGraph { consequences }, &mut row);
    row
}
