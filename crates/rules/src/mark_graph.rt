//! The rules as a graph of marks, by code: an edge leads from a mark to each that the rules, or a role above its role, put above it at once.
ghost use Rattle.graph.specs.Paths.{Adds};
ghost use Rattle.league.specs.declared.rules.Rule.TheVariants.{Inclusion as Included};
ghost use Rattle.rules.specs.Codes.{mark_of};
ghost use Rattle.rules.specs.Steps.{needs_hidden, lands_hidden, lifts_role, entry_of, mark_step};
ghost use Rattle.rules.specs.Tables.{means};

use crate::flags::Flags;
use crate::table::RuleTable;
use graph::contract::Graph;
use graph::rows::{add_node, add_row};

/// The rules, and the table of the roles that are below one another.
#[derive(Clone, Copy)]
pub struct MarkGraph<'a> {
    pub table: &'a RuleTable,
    pub below: &'a Flags<128, 128>,
}

// A table, a node and a set stand together in what adds to the set: node and set are what the trait of graphs hands over.
/// Adds the marks that an accepted inclusion puts above a mark.
#[tactic(auto, using(crate::proofs::MarkRows::of_inclusions))]
fn add_included(table: &RuleTable, node: usize, set: &mut [bool])
    ensures { Adds set.old set.new (λ k. (means table.now).rules (Included (mark_of node) (mark_of k))) }
{
    if node < 128 {
        add_row(table.inclusions.row(node), 0, set);
    }
}

/// Adds having a partner by the hidden link of each pair that a mark requires.
#[tactic(auto, using(crate::proofs::MarkRows::of_needs))]
fn add_needed(table: &RuleTable, node: usize, set: &mut [bool])
    ensures { Adds set.old set.new (λ k. needs_hidden (means table.now) (mark_of node) (mark_of k)) }
{
    if node >= 128 {
        return;
    }
    for (number, is_required) in table.required.row(node).iter().enumerate() {
        if *is_required {
            add_node(128 + 2 * number, set);
        }
    }
}

/// Adds the kind of the pair where a mark is being the partner by its hidden link.
#[tactic(auto, using(crate::proofs::MarkRows::of_landings))]
fn add_landed(table: &RuleTable, node: usize, set: &mut [bool])
    ensures { Adds set.old set.new (λ k. lands_hidden (means table.now) (mark_of node) (mark_of k)) }
{
    if node < 128 || node % 2 == 0 {
        return;
    }
    if let Some(pair) = table.pair((node - 128) / 2) {
        add_node(usize::from(pair.kind.0), set);
    }
}

/// Adds having a partner by each role above the role of a mark.
#[tactic(auto, using(crate::proofs::MarkRows::of_lifts))]
fn add_lifted(below: &Flags<128, 128>, node: usize, set: &mut [bool])
    ensures { Adds set.old set.new (λ k. lifts_role (entry_of below.now.cells) (mark_of node) (mark_of k)) }
{
    if (64..192).contains(&node) {
        add_row(below.row(node - 64), 64, set);
    }
}

impl<'a> Graph for MarkGraph<'a> {
    ghost edge = { λ g i j. mark_step (means g.table.now) (entry_of g.below.now.cells) i j };

    fn add_successors(&self, node: usize, set: &mut [bool]) {
        add_included(self.table, node, set);
        add_needed(self.table, node, set);
        add_landed(self.table, node, set);
        add_lifted(self.below, node, set);
    }
}
