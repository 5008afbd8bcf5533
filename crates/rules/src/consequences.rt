//! What follows from the accepted rules: which roles are below which, and which marks imply which.
ghost use Rattle.std.specs.Prelude.{◌≡◌, ℕ, ◌<◌, ◌≤◌};
ghost use Rattle.graph.specs.Paths.{Tells, Star, Step};
ghost use Rattle.rules.specs.Flags.{flag};
ghost use Rattle.rules.specs.Tables.{means};

use crate::flags::Flags;
use crate::mark_graph::MarkGraph;
use crate::ranges::{is_mark_listed, is_role_listed, mark_code};
use crate::table::RuleTable;
use graph::contract::Graph;
use graph::search::{MAX_NODES, reached_from};
use league::roles::{Mark, Role};

// The sizes are written out, as in the definitions: 64 links with both sides are 128 roles, and with 64 kinds 192 marks.
/// The two relations as tables: of the roles of 64 links, 32 of them hidden, and of the marks over 64 kinds and these roles.
#[derive(Clone, Copy)]
pub struct Consequences {
    roles: Flags<128, 128>,
    marks: Flags<192, 192>,
}

/// Of each node, the nodes that paths lead to from it.
#[tactic(auto, using(crate::proofs::Followed::row_more))]
fn reach_table<G: Graph, const N: usize>(graph: &G) -> Flags<N, N>
    requires few { N ≤ MAX_NODES }
    ensures { (a b : ℕ) → a < N → Tells (flag result.cells a b) (Star (Step (G.edge graph.now) N) a b) }
{
    // A closure for `array::from_fn` would have to state once more what `reached_from` requires and ensures.
    let mut rows = Flags::new();
    for node in 0..N {
        rows.put(node, reached_from(graph, node));
    }
    rows
}

impl Consequences {
    ghost use Rattle.rules.specs.Consequences.{told_below, told_implies, Decides};

    /// What follows from the accepted rules.
    pub fn new(table: &RuleTable) -> Self
        ensures { Decides result (means table.now) }
    {
        let roles = reach_table(table);
        let marks = reach_table(&MarkGraph {
            table,
            below: &roles,
        });
        Consequences { roles, marks }
    }

    // Two methods of one shape: a common one would need a trait of roles and marks, with what is listed and its code, and
    // be longer than both.
    /// Whether a role is below another: what it joins, the other joins.
    pub fn below(&self, sub: Role, sup: Role) -> bool
        ensures { result ≡ told_below self.now sub sup }
    {
        if is_role_listed(sub) && is_role_listed(sup) {
            return self.roles.is_set(sub.code() as usize, sup.code() as usize);
        }
        sub == sup
    }

    /// Whether a mark implies another: what has it, has the other.
    pub fn implies(&self, sub: Mark, sup: Mark) -> bool
        ensures { result ≡ told_implies self.now sub sup }
    {
        if is_mark_listed(sub) && is_mark_listed(sup) {
            return self.marks.is_set(mark_code(sub), mark_code(sup));
        }
        sub == sup
    }
}
