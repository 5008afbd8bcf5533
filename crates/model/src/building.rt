//! Building the canonical model of a store's facts and of rules.
ghost use Rattle.std.specs.Prelude.{◌≡◌, T, ◌↔◌};
ghost use Rattle.rules.specs.Consequences.{Decides};
ghost use Rattle.rules.specs.Tables.{means as rules_of};
ghost use Rattle.model.specs.Canonical.{Clash, Completes};
ghost use Rattle.model.specs.Clashes.{clash_test};
ghost use Rattle.model.specs.LookedUp.{tabled, TablesOf};
ghost use Rattle.model.specs.Tabled.{tabled_shape, tabled_form};

use crate::canonical::CanonicalModel;
use crate::canonical_tables::CanonicalTables;
use crate::generating::generating_row;
use crate::tables::{LoopTables, NameTables};
use rules::consequences::Consequences;
use rules::table::RuleTable;
use store::contract::Store;

/// The tables of a store's facts and of consequences.
fn tables_of<'a, S: Store>(store: &S, consequences: &'a Consequences) -> CanonicalTables<'a>
    ensures same { result.consequences.now ≡ consequences.now }
    ensures made { TablesOf (S.Store.means store.now) result }
{
    let names = store.names();
    let rows = NameTables::of(store, consequences);
    let loops = LoopTables::of(consequences);
    let generating = generating_row(consequences, &rows.starts, names);
    CanonicalTables {
        consequences,
        names,
        rows,
        loops,
        generating,
    }
}

impl<'a, S: Store> CanonicalModel<'a, S> {
    /// The canonical model of a store's facts and of a rule table's consequences. It is there whether or not the
    /// facts and rules contradict one another.
    pub fn new(
        store: &'a S,
        rules: &'a RuleTable,
        consequences: &'a Consequences,
    ) -> CanonicalModel<'a, S>
        requires { Decides consequences.now (rules_of rules.now) }
        ensures store { result.store.now ≡ store.now }
        ensures rules { result.rules.now ≡ rules.now }
        ensures whole { Completes (S.Store.means store.now).names (S.Store.means store.now).facts (rules_of rules.now) (tabled_shape (tabled result.tables) (S.Store.means store.now).facts) (tabled_form (tabled result.tables)) }
        ensures clash { T (clash_test (tabled result.tables) (rules_of rules.now).rules) ↔ Clash (S.Store.means store.now).names (S.Store.means store.now).facts (rules_of rules.now) }
    {
        let tables = tables_of(store, consequences);
        CanonicalModel {
            store,
            rules,
            tables,
        }
    }
}
