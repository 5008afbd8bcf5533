//! A store with a bit for each possible fact: it takes more memory, which opening clears, and looks up and
//! enters a fact at one place.
ghost use Rattle.std.specs.Prelude.{◌≡◌, ◌/◌, ◌<◌, ◌≤◌, false, length, IsTrue};
ghost use Rattle.store.specs.Bits.{place_of, is_set, with_bit, cleared, size_of, bit_limit, names_over, held_bits};
ghost use Rattle.league.specs.Facts.{within};
ghost use Rattle.store.specs.Holding.{opened, gain as gained, count as counted};
ghost use Rattle.store.specs.Marked.{held_bits_sound};

use crate::bits::BitStore;
use crate::contract::{Store, admit, check_range, usable_names};
use league::facts::{Entry, Fact};
use league::faults::StoreFault;

/// The number of a fact's bit, where there are so many names.
fn place(names: u16, fact: Fact) -> usize
    ensures { result ≡ place_of names fact }
{
    match fact {
        Fact::Is(kind, name) => 64 * usize::from(name.0) + usize::from(kind.0),
        Fact::Joins(link, from, to) => {
            let n = usize::from(names);
            let pair = usize::from(from.0) * n + usize::from(to.0);
            64 * n + (32 * pair + usize::from(link.0))
        }
    }
}

/// Whether a bit is set.
fn is_set(bytes: &[u8], bit: usize) -> bool
    requires { bit / 8 < length bytes.now }
    ensures { result ≡ is_set bytes.now bit }
{
    (bytes[bit / 8] >> (bit % 8)) % 2 == 1
}

/// A byte with one of its bits set.
fn with_bit(byte: u8, bit: usize) -> u8
    requires { bit < 8 }
    ensures { result ≡ with_bit byte bit }
{
    byte | 1 << bit
}

/// How many bytes the bits over so many names take.
fn size(names: u16) -> usize
    ensures { result ≡ size_of names }
{
    let n = usize::from(names);
    8 * n + 4 * (n * n)
}

// 0 and no `Option`, as the number of names that any store can have.
/// The number of names of a store over these bytes that is asked for so many.
fn names_over(bytes: &[u8], names: u16) -> u16
    ensures { result ≡ names_over bytes.now names }
{
    if bytes.len() < size(names) {
        0
    } else {
        usable_names(names)
    }
}

impl<'a> BitStore<'a> {
    /// An empty store over lent bytes. It clears those that its bits take, and leaves the others as they are.
    pub fn open(bytes: &'a mut [u8], names: u16) -> BitStore<'a>
        ensures opened { held_bits result.names result.bytes.now ≡ opened (names_over bytes.old names) (bit_limit (names_over bytes.old names)) }
        ensures bytes { result.bytes.now ≡ cleared (size_of (names_over bytes.old names)) bytes.old }
    {
        let usable = names_over(bytes, names);
        bytes[..size(usable)].fill(0);
        BitStore {
            names: usable,
            count: 0,
            bytes,
        }
    }

    /// Gains a fact that it does not hold, where there is room for one more.
    #[tactic(auto, using(crate::proofs::BitsHeld::placed))]
    fn gain(&mut self, fact: Fact)
        requires range { IsTrue (within self.old.names fact) }
        requires fresh { (held_bits self.old.names self.old.bytes.now).facts fact ≡ false }
        requires room { counted (held_bits self.old.names self.old.bytes.now) < (held_bits self.old.names self.old.bytes.now).limit }
        ensures { held_bits self.new.names self.new.bytes.now ≡ gained (held_bits self.old.names self.old.bytes.now) fact }
    {
        let bit = place(self.names, fact);
        self.bytes[bit / 8] = with_bit(self.bytes[bit / 8], bit % 8);
        self.count += 1;
    }
}

impl<'a> Store for BitStore<'a> {
    ghost means = { λ s. held_bits s.names s.bytes.now };

    ghost sound = { λ s. held_bits_sound s.names s.bytes.now s.few };

    fn names(&self) -> u16 {
        self.names
    }

    #[tactic(auto, using(crate::proofs::BitsPlaced::limit_fits))]
    fn limit(&self) -> u32 {
        let n = u32::from(self.names);
        64 * n + 32 * (n * n)
    }

    fn count(&self) -> u32 {
        self.count
    }

    #[tactic(auto, using(crate::proofs::BitsHeld::placed))]
    fn has(&self, fact: Fact) -> bool {
        check_range(self.names, fact).is_ok() && is_set(self.bytes, place(self.names, fact))
    }

    // As in the other store: a store shows its entries and nothing else, so what it gains is no method of the trait, and
    // the check does not cover a function over a trait of the crate's own that leads back to `has`.
    fn enter(&mut self, fact: Fact) -> Result<Entry, StoreFault> {
        // `*self`: a lent store is a store too, and `self` is one.
        let known = (*self).has(fact);
        let room = (*self).count() < (*self).limit();
        let entry = admit((*self).names(), fact, known, room)?;
        if entry == Entry::New {
            self.gain(fact);
        }
        Ok(entry)
    }
}
