//! Adding to sets: a node, and a row of flags. What a set has no flag for is left out.
ghost use Rattle.std.specs.Prelude.{◌-◌, false, ◌&&◌, ◌==◌, nat_le, slice_index_or};
ghost use Rattle.graph.specs.Paths.{Adds};

/// Adds a node to a set.
pub fn add_node(node: usize, set: &mut [bool])
    ensures { Adds set.old set.new (λ k. k == node) }
{
    // No `get_mut`, of which std does not say what the slice ends as.
    if node < set.len() {
        set[node] = true;
    }
}

/// Adds to a set the nodes whose flags are set in a row, which begins at some node.
#[tactic(auto, using(crate::proofs::Shifted::with_row_first))]
pub fn add_row(row: &[bool], first: usize, set: &mut [bool])
    ensures { Adds set.old set.new (λ k. nat_le first k && slice_index_or row.now (k - first) false) }
{
    // By index: of a loop over `iter_mut`, skipped and zipped, a proof does not learn what the set is on the way.
    for (node, is_added) in (first..set.len()).zip(row) {
        set[node] |= *is_added;
    }
}
