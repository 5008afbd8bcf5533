//! A table of flags with fixed numbers of rows and columns, at first all unset.
ghost use Rattle.std.specs.Prelude.{◌≡◌, ℕ, ◌<◌, false, ◌&&◌, ◌||◌, [], length, if◌then◌else◌, ◌==◌, slice_index_or};
ghost use Rattle.rules.specs.Flags.{flag};

// No `impl Model`: a clause sees a table as a function of row and column, and a model's value may hold none.
/// A flag for each row and column.
#[derive(Clone, Copy)]
pub struct Flags<const ROWS: usize, const COLUMNS: usize> {
    pub cells: [[bool; COLUMNS]; ROWS],
    ghost tall: { length cells ≡ ROWS },
    ghost wide: { (i : ℕ) → i < ROWS → length (slice_index_or cells i []) ≡ COLUMNS },
}

impl<const ROWS: usize, const COLUMNS: usize> Flags<ROWS, COLUMNS> {
    /// No flag is set.
    #[tactic(auto, using(crate::proofs::Flagged::flag_none, crate::proofs::Flagged::wide_none))]
    pub fn new() -> Self
        ensures { (row column : ℕ) → flag result.cells row column ≡ false }
    {
        Flags {
            cells: [[false; COLUMNS]; ROWS],
        }
    }

    // No `get`: its closure asks that a row fits in memory, which a row of any number of columns cannot show.
    /// Whether the flag is set; outside the table none is.
    pub fn is_set(&self, row: usize, column: usize) -> bool
        ensures { result ≡ flag self.now.cells row column }
    {
        row < ROWS && column < COLUMNS && self.cells[row][column]
    }

    // Rows and columns are indices with the bounds of an array's: a type for each would be unwrapped at each use.
    /// The flags of a row.
    pub fn row(&self, row: usize) -> &[bool; COLUMNS]
        requires { row < ROWS }
        ensures { (column : ℕ) → slice_index_or result.now column false ≡ flag self.now.cells row column }
    {
        &self.cells[row]
    }

    /// Makes the flags of a row others.
    #[tactic(auto, using(crate::proofs::Flagged::flag_put, crate::proofs::Flagged::wide_put))]
    pub fn put(&mut self, row: usize, flags: [bool; COLUMNS])
        requires { row < ROWS }
        ensures { (i j : ℕ) → flag self.new.cells i j ≡ (if i == row then slice_index_or flags.entry j false else flag self.old.cells i j) }
    {
        self.cells[row] = flags;
    }

    /// Sets a flag.
    #[tactic(auto, using(crate::proofs::Flagged::flag_set, crate::proofs::Flagged::wide_set))]
    pub fn set(&mut self, row: usize, column: usize)
        requires row_within { row < ROWS }
        requires column_within { column < COLUMNS }
        ensures { (i j : ℕ) → flag self.new.cells i j ≡ ((i == row && j == column) || flag self.old.cells i j) }
    {
        self.cells[row][column] = true;
    }
}
