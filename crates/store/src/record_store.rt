//! A store over lent records: small, and quick to open; looking for a fact goes through the records.
ghost use Rattle.std.specs.Prelude.{◌≡◌, ◌<◌, ◌≤◌, false, length, IsTrue};
ghost use Rattle.std.specs.List.{list_any};
ghost use Rattle.league.specs.Facts.{same, within};
ghost use Rattle.store.specs.Holding.{names_of, opened, gain as gained, count as counted};
ghost use Rattle.store.specs.Records.{held, record_limit};
ghost use Rattle.store.specs.Listed.{held_sound};

use crate::contract::{Store, admit, usable_names};
use crate::records::RecordStore;
use league::facts::{Entry, Fact};
use league::faults::StoreFault;

// The derived `==` in a function: `any` hands on what its test's contract says, and that speaks of the definition's equality.
/// Whether a record is the fact.
#[tactic(auto, using(crate::proofs::ListedAny::same_fact))]
fn is_same(one: Fact, fact: Fact) -> bool
    ensures { result ≡ same one fact }
{
    one == fact
}

// Not `contains`, which is a call for each fact that is sought: a model that is built seeks more than sixty for each two names.
/// Whether a fact is among some records.
fn is_listed(records: &[Fact], fact: Fact) -> bool
    ensures { result ≡ list_any (λ x. same x fact) records.now }
{
    records.iter().any(|record| is_same(*record, fact))
}

impl<'a> RecordStore<'a> {
    /// An empty store over lent records, which stay as they are until facts are entered.
    pub fn open(records: &'a mut [Fact], names: u16) -> RecordStore<'a>
        ensures opened { held result.names result.records.now result.len ≡ opened (names_of names) (record_limit records.old) }
        ensures untouched { result.records.now ≡ records.old }
    {
        RecordStore {
            names: usable_names(names),
            len: 0,
            records,
        }
    }

    /// Gains a fact that it does not hold, where there is room for one more.
    fn gain(&mut self, fact: Fact)
        requires range { IsTrue (within self.old.names fact) }
        requires fresh { (held self.old.names self.old.records.now self.old.len).facts fact ≡ false }
        requires room { counted (held self.old.names self.old.records.now self.old.len) < (held self.old.names self.old.records.now self.old.len).limit }
        ensures { held self.new.names self.new.records.now self.new.len ≡ gained (held self.old.names self.old.records.now self.old.len) fact }
    {
        self.records[self.len] = fact;
        self.len += 1;
    }
}

impl<'a> Store for RecordStore<'a> {
    ghost means = { λ s. held s.names s.records.now s.len };

    ghost sound = { λ s. held_sound s.names s.records.now s.len s.few s.room s.good };

    fn names(&self) -> u16 {
        self.names
    }

    fn limit(&self) -> u32 {
        self.records.len().min(65535) as u32
    }

    #[tactic(auto, using(crate::specs::Listed::count_held))]
    fn count(&self) -> u32 {
        self.len as u32
    }

    #[tactic(auto, using(crate::proofs::ListedAny::listed_any))]
    fn has(&self, fact: Fact) -> bool {
        is_listed(&self.records[..self.len], fact)
    }

    // As in the other store: a store shows its entries and nothing else, so what it gains is no method of the trait, and
    // the check does not cover a function over a trait of the crate's own that leads back to `has`.
    fn enter(&mut self, fact: Fact) -> Result<Entry, StoreFault> {
        // `*self`: a lent store is a store too, and `self` is one.
        let known = (*self).has(fact);
        let room = (*self).count() < (*self).limit();
        let entry = admit((*self).names(), fact, known, room)?;
        if entry == Entry::New {
            self.gain(fact);
        }
        Ok(entry)
    }
}
