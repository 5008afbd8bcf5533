//! What every store does: it holds a set of facts over so many names, up to a limit.
ghost use Rattle.std.specs.Prelude.{◌≡◌, ◌<◌, Bool, false, IsTrue};
ghost use Rattle.league.specs.Facts.{within};
ghost use Rattle.store.specs.Holding.{Holding, Sound, count as counted, gain as gained, names_of, below, fault_in, admitted, reply, after};

use league::facts::{Entry, Fact};
use league::faults::{Place, StoreFault};

/// Refuses a number that is not below its bound.
fn check_below(number: u16, bound: u16, fault: StoreFault) -> Result<(), StoreFault>
    ensures { result ≡ below number bound fault (Ok tt) }
{
    if number < bound { Ok(()) } else { Err(fault) }
}

// Functions of a number of names and a fact, and no methods of a store: both stores use them, and each test is said once.
/// The first of a fact's numbers, from the left, that is out of range where there are so many names.
pub fn check_range(names: u16, fact: Fact) -> Result<(), StoreFault>
    ensures { result ≡ fault_in names fact }
{
    match fact {
        Fact::Is(kind, name) => {
            check_below(kind.0, 64, StoreFault::Kind(Place(1)))?;
            check_below(name.0, names, StoreFault::Name(Place(2)))
        }
        Fact::Joins(link, from, to) => {
            check_below(link.0, 32, StoreFault::Link(Place(1)))?;
            check_below(from.0, names, StoreFault::Name(Place(2)))?;
            check_below(to.0, names, StoreFault::Name(Place(3)))
        }
    }
}

// Two `bool`s, which choose no step but say what the store found: the definition is a function of both.
/// What a store of so many names answers to a fact, where the fact is known or not and there is room or not.
pub fn admit(names: u16, fact: Fact, known: bool, room: bool) -> Result<Entry, StoreFault>
    ensures { result ≡ admitted names fact known room }
{
    check_range(names, fact)?;
    if known {
        return Ok(Entry::Known);
    }
    if room {
        return Ok(Entry::New);
    }
    Err(StoreFault::Full)
}

// 0 and no `Option`: a store that cannot have so many names is opened without any, and opening never fails.
/// The number of names of a store that is asked for so many: none where that is 0 or above 1,024.
pub(crate) fn usable_names(names: u16) -> u16
    ensures { result ≡ names_of names }
{
    if names > 1024 { 0 } else { names }
}

/// A set of facts over so many names, up to a limit.
pub trait Store {
    ghost means: { Self → Holding };

    ghost sound: { (s : Self) → Sound (means s) };

    /// How many names there are: every name is below this number.
    fn names(&self) -> u16
        ensures { result ≡ (means self.now).names };

    /// How many facts the store may hold.
    fn limit(&self) -> u32
        ensures { result ≡ (means self.now).limit };

    /// How many facts it holds.
    fn count(&self) -> u32
        ensures { result ≡ counted (means self.now) };

    /// Whether it holds the fact.
    fn has(&self, fact: Fact) -> bool
        ensures { result ≡ (means self.now).facts fact };

    /// Enters a fact: refuses a number out of range, knows a fact that it holds, refuses a new one at
    /// the limit, and otherwise gains that fact alone.
    fn enter(&mut self, fact: Fact) -> Result<Entry, StoreFault>
        ensures answers { result ≡ reply (means self.old) fact }
        ensures holds { means self.new ≡ after (means self.old) fact };
}

/// A store that is lent is a store.
impl<'b, T: Store> Store for &'b mut T {
    ghost means = { λ s. T.Store.means s.now };

    ghost sound = { λ s. T.Store.sound s.now };

    fn names(&self) -> u16 {
        (**self).names()
    }

    fn limit(&self) -> u32 {
        (**self).limit()
    }

    fn count(&self) -> u32 {
        (**self).count()
    }

    fn has(&self, fact: Fact) -> bool {
        (**self).has(fact)
    }

    fn enter(&mut self, fact: Fact) -> Result<Entry, StoreFault> {
        (**self).enter(fact)
    }
}
