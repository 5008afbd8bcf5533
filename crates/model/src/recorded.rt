//! What recorded facts say of names by themselves: their kinds, and their partners by a role itself.
ghost use Rattle.std.specs.Prelude.{◌≡◌};
ghost use Rattle.model.specs.Recorded.{fact_of};
ghost use Rattle.model.specs.Given.{has_partner, is_given};

use league::facts::{Fact, Name};
use league::roles::{Mark, Role};
use store::contract::Store;

/// The fact by which the role itself joins one name to another.
pub fn fact_of(role: Role, from: Name, to: Name) -> Fact
    ensures { result ≡ fact_of role from to }
{
    match role {
        Role::Forward(link) => Fact::Joins(link, from, to),
        Role::Backward(link) => Fact::Joins(link, to, from),
    }
}

/// Whether a recorded fact gives the name a partner by the role itself.
pub fn has_partner<S: Store>(store: &S, role: Role, name: Name) -> bool
    ensures { result ≡ has_partner (S.Store.means store.now) role name }
{
    (0..store.names()).any(|partner| store.has(fact_of(role, name, Name(partner))))
}

/// Whether a recorded fact gives the name the mark.
pub fn is_given<S: Store>(store: &S, name: Name, mark: Mark) -> bool
    ensures { result ≡ is_given (S.Store.means store.now) name mark }
{
    match mark {
        Mark::Is(kind) => store.has(Fact::Is(kind, name)),
        Mark::Has(role) => has_partner(store, role, name),
    }
}
