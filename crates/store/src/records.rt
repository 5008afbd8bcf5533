//! The records of a record store, and what holds of them.
ghost use Rattle.std.specs.Prelude.{◌≡◌, ◌≤◌, min, true, length, take};
ghost use Rattle.store.specs.Records.{distinct};

use league::facts::Fact;

/// A store that keeps its facts as records in lent memory, in order of entry.
#[derive(Drop)]
pub struct RecordStore<'a> {
    pub(crate) names: u16,
    // The records are the caller's memory, of any number, and a store allocates nothing: so how many are used stands beside them.
    pub(crate) len: usize,
    pub(crate) records: &'a mut [Fact],
    ghost few: { names ≤ 1024 },
    ghost room: { len ≤ min (length records.now) 65535 },
    ghost good: { distinct names (take len records.now) ≡ true },
}
