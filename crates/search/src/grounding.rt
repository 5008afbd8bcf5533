//! Whether every way up from every place of a table ends.
ghost use Rattle.std.specs.Prelude.{◌≡◌, ℕ, ◌<◌, true, false, MatchOption, slice_index_or};
ghost use Rattle.rules.specs.Flags.{flag};
ghost use Rattle.search.specs.Forcing.{Decides};
ghost use Rattle.search.specs.Grounding.{OpenAbove, Waits, Grounded};

use crate::forcing::Steps;

impl Steps {
    /// Whether some place above this one is not flagged.
    fn open_above(&self, flags: &[bool; 8], below: usize) -> bool
        ensures { Decides result (OpenAbove (flag self.now.down.cells) flags.now below) }
    {
        (0..8).any(|place| self.down.is_set(place, below) && !flags[place])
    }

    /// Whether some place above one that is the same as this one is not flagged.
    fn waits(&self, flags: &[bool; 8], here: usize) -> bool
        ensures { Decides result (Waits (flag self.now.down.cells) (flag self.now.same.cells) flags.now here) }
    {
        (0..8).any(|place| self.same.is_set(here, place) && self.open_above(flags, place))
    }

    /// The first place that is not flagged and waits for none.
    fn next_grounded(&self, flags: &[bool; 8]) -> Option<usize>
        ensures { MatchOption result ((i : ℕ) → i < 8 → slice_index_or flags.now i false ≡ false → (Waits (flag self.now.down.cells) (flag self.now.same.cells) flags.now i → ⊥) → ⊥) (λ i. (i < 8) × ((slice_index_or flags.now i false ≡ false) × (Waits (flag self.now.down.cells) (flag self.now.same.cells) flags.now i → ⊥))) }
    {
        (0..8).find(|place| !flags[*place] && !self.waits(flags, *place))
    }

    /// Which places are grounded.
    pub(crate) fn grounded_places(&self) -> [bool; 8]
        ensures { (i : ℕ) → i < 8 → Decides (slice_index_or result i false) (Grounded (flag self.now.down.cells) (flag self.now.same.cells) i) }
    {
        let mut flags = [false; 8];
        while let Some(place) = self.next_grounded(&flags) {
            flags[place] = true;
        }
        flags
    }
}
