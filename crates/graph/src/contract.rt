//! What every graph tells: its nodes are numbers, and the successors of a node are added to a set as a whole row of flags.
ghost use Rattle.std.specs.Prelude.{ℕ, Bool};
ghost use Rattle.graph.specs.Paths.{Adds};

/// A graph, by which nodes its edges join.
pub trait Graph {
    ghost edge: { Self → ℕ → ℕ → Bool };

    /// Adds to a set the nodes that an edge leads to from a node, those of them that the set has a flag for.
    fn add_successors(&self, node: usize, set: &mut [bool])
        ensures { Adds set.old set.new (edge self.now node) };
}
