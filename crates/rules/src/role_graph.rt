//! The rules as a graph of roles, by code: an edge leads from a role to each that the rules put above it at once.
ghost use Rattle.std.specs.Prelude.{◌≡◌, ◌<◌, ◌≤◌};
ghost use Rattle.graph.specs.Paths.{Adds};
ghost use Rattle.rules.specs.Codes.{on_side};
ghost use Rattle.rules.specs.Steps.{role_step};
ghost use Rattle.rules.specs.Tables.{means};

use crate::table::RuleTable;
use graph::contract::Graph;
use graph::rows::{add_node, add_row};
use league::roles::Role;

// A code and no role: nodes of a graph are numbers, so that one search serves roles, marks and whatever else.
/// The role, turned where the code is of a link read backward.
fn on_side(role: Role, code: usize) -> Role
    ensures { result ≡ on_side role code }
{
    if code % 2 == 0 { role } else { role.inverse() }
}

// Table, node and set stand together as in the graph of marks.
/// Adds the roles above a role that rules may name.
#[tactic(auto, using(crate::proofs::RoleRows::of_visible_links))]
fn add_wider(table: &RuleTable, node: usize, set: &mut [bool])
    requires { node < 64 }
    ensures { Adds set.old set.new (role_step (means table.now) node) }
{
    add_row(table.roles.row(node), 0, set);
}

/// Adds the role of the pair that a hidden link stands for.
#[tactic(auto, using(crate::proofs::RoleRows::of_hidden_links))]
fn add_pair_role(table: &RuleTable, node: usize, set: &mut [bool])
    requires { 64 ≤ node }
    ensures { Adds set.old set.new (role_step (means table.now) node) }
{
    if let Some(pair) = table.pair((node - 64) / 2) {
        add_node(on_side(pair.role, node).code() as usize, set);
    }
}

impl Graph for RuleTable {
    ghost edge = { λ t i j. role_step (means t) i j };

    fn add_successors(&self, node: usize, set: &mut [bool]) {
        if node < 64 {
            add_wider(self, node, set);
        } else {
            add_pair_role(self, node, set);
        }
    }
}
