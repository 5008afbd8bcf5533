//! Which places are forced to one path by the steps between them.
ghost use Rattle.std.specs.Prelude.{◌≡◌, ℕ, ◌<◌, true, false, MatchOption};
ghost use Rattle.rules.specs.Flags.{flag};
ghost use Rattle.search.specs.Forcing.{Meets, BelowMeets, SideBySide, ForcedNow, Forced, Decides};

use rules::flags::Flags;

// No `impl Model`: clauses see the two tables as relations, which are functions, and a model's value may hold none.
/// From which places steps go down to which, and which places are the same: forced to one path by the steps.
#[derive(Clone, Copy)]
pub(crate) struct Steps {
    pub(crate) down: Flags<8, 8>,
    pub(crate) same: Flags<8, 8>,
}

impl Steps {
    // Tests of one shape, "some place with both": a common one over two closures would be longer than the `any` of each.
    /// Whether some place is the same as both.
    fn meets(&self, one: usize, other: usize) -> bool
        ensures { Decides result (Meets (flag self.now.same.cells) one other) }
    {
        (0..8).any(|place| self.same.is_set(one, place) && self.same.is_set(place, other))
    }

    /// Whether some place below the first is the same as the second.
    fn below_meets(&self, above: usize, other: usize) -> bool
        ensures { Decides result (BelowMeets (flag self.now.down.cells) (flag self.now.same.cells) above other) }
    {
        (0..8).any(|place| self.down.is_set(above, place) && self.same.is_set(other, place))
    }

    /// Whether places below the two are the same.
    fn side_by_side(&self, one: usize, other: usize) -> bool
        ensures { Decides result (SideBySide (flag self.now.down.cells) (flag self.now.same.cells) one other) }
    {
        (0..8).any(|place| self.down.is_set(one, place) && self.below_meets(other, place))
    }

    /// Whether what is the same forces the two to be the same.
    fn forced_now(&self, one: usize, other: usize) -> bool
        ensures { Decides result (ForcedNow (flag self.now.down.cells) (flag self.now.same.cells) one other) }
    {
        self.meets(one, other) || self.side_by_side(one, other)
    }

    /// The first place that is forced to be the same as this one and not yet flagged.
    fn next_with(&self, one: usize) -> Option<usize>
        ensures { MatchOption result ((j : ℕ) → j < 8 → flag self.now.same.cells one j ≡ false → ForcedNow (flag self.now.down.cells) (flag self.now.same.cells) one j → ⊥) (λ j. (j < 8) × ((flag self.now.same.cells one j ≡ false) × ForcedNow (flag self.now.down.cells) (flag self.now.same.cells) one j)) }
    {
        (0..8).find(|other| !self.same.is_set(one, *other) && self.forced_now(one, *other))
    }

    /// The first two places that are forced to be the same and not yet flagged.
    fn next_forced(&self) -> Option<(usize, usize)>
        ensures { MatchOption result ((i : ℕ) → i < 8 → (j : ℕ) → j < 8 → flag self.now.same.cells i j ≡ false → ForcedNow (flag self.now.down.cells) (flag self.now.same.cells) i j → ⊥) (λ p. (p.0 < 8) × (p.1 < 8) × (flag self.now.same.cells p.0 p.1 ≡ false) × ForcedNow (flag self.now.down.cells) (flag self.now.same.cells) p.0 p.1) }
    {
        (0..8).find_map(|one| self.next_with(one).map(|other| (one, other)))
    }

    /// The places that are forced to one path by the steps down from place to place.
    pub(crate) fn new(down: Flags<8, 8>) -> Self
        ensures down { result.down ≡ down }
        ensures same { (i j : ℕ) → i < 8 → j < 8 → Decides (flag result.same.cells i j) (Forced (flag result.down.cells) i j) }
    {
        let mut steps = Steps {
            down,
            same: Flags::new(),
        };
        // Flag by flag, as a table of flags is written.
        for place in 0..8 {
            steps.same.set(place, place);
        }
        while let Some((one, other)) = steps.next_forced() {
            steps.same.set(one, other);
        }
        steps
    }
}
