//! The pairs in use, at most 32, in order of first use.
ghost use Rattle.std.specs.Prelude.{◌≡◌, ◌<◌, ◌≤◌, [], ◌∷◌, ◌++◌, length, IfOk, if◌then◌else◌, Some, None, Ok, Err};
ghost use Rattle.std.specs.List.{slice_get};
ghost use Rattle.league.specs.declared.faults.BookFault.TheVariants.{Pairs as NoRoom};
ghost use Rattle.rules.specs.Pairs.{has_pair, number_of, fits, with_pair};

use crate::pair::Pair;
use league::facts::{Kind, Link};
use league::faults::BookFault;
use league::roles::Role;

/// The pairs at the first `count` places; the others are not in use. No `ArrayVec`, which is not `Copy`, as rule tables are
/// for callers; and no `impl Model` as a list, which could not give back the places that are not in use.
#[derive(Clone, Copy)]
pub struct PairList {
    places: [Pair; 32],
    count: usize,
    ghost few: { count ≤ 32 },
    ghost sized: { length places ≡ 32 },
}

impl PairList {
    ghost use Rattle.rules.specs.InUse.{in_use};

    /// No pair is in use.
    pub fn new() -> Self
        ensures { in_use result ≡ [] }
    {
        let unused = Pair {
            role: Role::Forward(Link(0)),
            kind: Kind(0),
        };
        PairList {
            places: [unused; 32],
            count: 0,
        }
    }

    /// The pairs in use.
    fn used(&self) -> &[Pair]
        ensures { result.now ≡ in_use self.now }
    {
        &self.places[..self.count]
    }

    /// How many pairs are in use.
    pub fn len(&self) -> usize
        ensures counts { result ≡ length (in_use self.now) }
        ensures few { result ≤ 32 }
    {
        self.used().len()
    }

    /// The pair with a number, counted from 0.
    pub fn get(&self, number: usize) -> Option<Pair>
        ensures { result ≡ slice_get (in_use self.now) number }
    {
        self.used().get(number).copied()
    }

    /// The number of a pair that is in use.
    pub fn number(&self, pair: Pair) -> Option<usize>
        ensures { result ≡ (if has_pair (in_use self.now) pair then Some (number_of (in_use self.now) pair) else None) }
    {
        self.used().iter().position(|known| *known == pair)
    }

    /// The number of a pair, which is taken into use where it was not; refused while 32 others are.
    #[tactic(auto, using(crate::proofs::Numbered::number_le))]
    pub fn take_number(&mut self, pair: Pair) -> Result<usize, BookFault>
        ensures replies { result ≡ (if fits (in_use self.old) pair then Ok (number_of (in_use self.old) pair) else Err NoRoom) }
        ensures holds { in_use self.new ≡ (if fits (in_use self.old) pair then with_pair (in_use self.old) pair else in_use self.old) }
        ensures below { IfOk result (λ n. n < 32) }
    {
        if let Some(number) = self.number(pair) {
            return Ok(number);
        }
        let count = self.len();
        if count >= 32 {
            return Err(BookFault::Pairs);
        }
        self.push(pair);
        Ok(count)
    }

    /// Takes a pair into use.
    fn push(&mut self, pair: Pair)
        requires { length (in_use self.old) < 32 }
        ensures { in_use self.new ≡ in_use self.old ++ (pair ∷ []) }
    {
        self.places[self.count] = pair;
        self.count += 1;
    }
}
