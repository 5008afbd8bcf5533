//! The bytes of a bit store, and what holds of them.
ghost use Rattle.std.specs.Prelude.{◌≡◌, ◌≤◌, length};
ghost use Rattle.league.specs.Facts.{count_of};
ghost use Rattle.store.specs.Bits.{size_of, marked};

/// A store that keeps a bit for each possible fact in lent memory.
#[derive(Drop)]
pub struct BitStore<'a> {
    pub(crate) names: u16,
    pub(crate) count: u32,
    pub(crate) bytes: &'a mut [u8],
    ghost few: { names ≤ 1024 },
    ghost room: { size_of names ≤ length bytes.now },
    ghost counted: { count ≡ count_of names (marked names bytes.now) },
}
