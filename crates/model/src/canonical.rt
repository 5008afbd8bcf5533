//! The canonical model: names, and witnesses for the partners that the rules require.
ghost use Rattle.std.specs.Prelude.{◌≤◌};
ghost use Rattle.model.specs.LookedUp.{tabled};
ghost use Rattle.model.specs.Tabled.{Consistent};

use crate::canonical_tables::CanonicalTables;
use rules::table::RuleTable;
use store::contract::Store;

/// What follows from a store's facts and from rules, as a model.
#[derive(Drop)]
pub struct CanonicalModel<'a, S: Store> {
    pub(crate) store: &'a S,
    pub(crate) rules: &'a RuleTable,
    pub(crate) tables: CanonicalTables<'a>,
    ghost few: { tables.names ≤ 1024 },
    ghost right: { ∥ Consistent (tabled tables) ∥₁ },
}
