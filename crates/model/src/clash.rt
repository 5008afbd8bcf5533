//! Whether a clash stands: some present element has both marks of an accepted exclusion.
ghost use Rattle.std.specs.Prelude.{◌≡◌};
ghost use Rattle.rules.specs.Tables.{means as rules_of};
ghost use Rattle.model.specs.Clashes.{name_holds, witness_holds, role_holds, some_holds, both_clash, mark_clashes, clash_test};
ghost use Rattle.model.specs.LookedUp.{tabled};
ghost use Rattle.model.specs.Rows.{some_below};

use crate::canonical::CanonicalModel;
use crate::canonical_tables::CanonicalTables;
use crate::codes::{mark_of, role_of};
use league::facts::Name;
use league::roles::{Mark, Role};
use league::rules::Rule;
use store::contract::Store;

impl CanonicalTables<'_> {
    // Two marks stand together here: they are the two sides of an exclusion, and no value of their own.
    /// Whether a name has both marks.
    fn name_holds(&self, left: Mark, right: Mark, name: Name) -> bool
        ensures { result ≡ name_holds (tabled self.now) left right name.0 }
    {
        self.name_has(left, name) && self.name_has(right, name)
    }

    /// Whether the role is generating, and its witnesses have both marks.
    fn witness_holds(&self, left: Mark, right: Mark, role: Role) -> bool
        ensures { result ≡ role_holds (tabled self.now) left right role }
    {
        let back = Mark::Has(role.inverse());
        self.is_generating(role)
            && self.consequences.implies(back, left)
            && self.consequences.implies(back, right)
    }

    /// Whether some name has both marks.
    fn some_name_holds(&self, left: Mark, right: Mark) -> bool
        ensures { result ≡ some_below self.now.names (name_holds (tabled self.now) left right) }
    {
        (0..self.names).any(|name| self.name_holds(left, right, Name(name)))
    }

    /// Whether the witnesses of some generating role have both marks.
    fn some_witness_holds(&self, left: Mark, right: Mark) -> bool
        ensures { result ≡ some_below 128 (witness_holds (tabled self.now) left right) }
    {
        (0..128).any(|code| self.witness_holds(left, right, role_of(code)))
    }

    /// Whether some present element has both marks.
    fn some_holds(&self, left: Mark, right: Mark) -> bool
        ensures { result ≡ some_holds (tabled self.now) left right }
    {
        self.some_name_holds(left, right) || self.some_witness_holds(left, right)
    }
}

impl<'a, S: Store> CanonicalModel<'a, S> {
    /// Whether the marks exclude one another, and some present element has both.
    fn both_clash(&self, left: Mark, right: Mark) -> bool
        ensures { result ≡ both_clash (tabled self.now.tables) (rules_of self.now.rules.now).rules left right }
    {
        self.rules.has(Rule::Exclusion(left, right)) && self.tables.some_holds(left, right)
    }

    /// Whether some mark excludes the mark, and some present element has both.
    fn clashes(&self, mark: Mark) -> bool
        ensures { result ≡ mark_clashes (tabled self.now.tables) (rules_of self.now.rules.now).rules mark }
    {
        (0..128).any(|code| self.both_clash(mark, mark_of(code)))
    }

    /// Whether a clash stands.
    pub fn clash(&self) -> bool
        ensures { result ≡ clash_test (tabled self.now.tables) (rules_of self.now.rules.now).rules }
    {
        (0..128).any(|code| self.clashes(mark_of(code)))
    }
}
