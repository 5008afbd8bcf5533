//! The table of the accepted rules: entering rules, and telling which were accepted. It needs no memory but its own, since there
//! are only so many rules that can be stated.
ghost use Rattle.std.specs.Prelude.{◌≡◌, ℕ, ◌≤◌, true, false, ◌&&◌, ◌||◌, length, if◌then◌else◌, Ok, Err, ◌==◌};
ghost use Rattle.std.specs.List.{slice_get};
ghost use Rattle.league.specs.Roles.{code, inverse};
ghost use Rattle.league.specs.declared.facts.Entry.TheVariants.{New};
ghost use Rattle.league.specs.declared.faults.BookFault.TheVariants.{Pairs as NoRoom};
ghost use Rattle.rules.specs.Flags.{flag};
ghost use Rattle.rules.specs.InUse.{in_use};
ghost use Rattle.rules.specs.Marks.{mark_code, mark_within, role_within};
ghost use Rattle.rules.specs.Noted.{rule_set_of};
ghost use Rattle.rules.specs.Pairs.{has_pair, number_of};
ghost use Rattle.rules.specs.RuleSet.{no_rules, rule_reply, rule_after, rule_within, has_room, gained, Proper};

use crate::flags::Flags;
use crate::pair::Pair;
use crate::pairs::PairList;
use crate::ranges::{check_rule, mark_code};
use league::facts::Entry;
use league::faults::BookFault;
use league::roles::{Mark, Role};
use league::rules::Rule;

// No `impl Model`: the table is `Copy` for its callers, and a set of rules, which has a function, cannot be turned back into one.
/// The rules that were accepted, a flag for each, and the pairs that they use.
#[derive(Clone, Copy)]
pub struct RuleTable {
    /// Mark by mark.
    pub(crate) inclusions: Flags<128, 128>,
    /// Mark by mark, each rule in both its spellings.
    exclusions: Flags<128, 128>,
    /// Mark by number of a pair.
    pub(crate) required: Flags<128, 32>,
    /// Role by role, each rule in both its spellings.
    pub(crate) roles: Flags<64, 64>,
    pairs: PairList,
    ghost proper: { ∥ Proper (rule_set_of inclusions.cells exclusions.cells required.cells roles.cells (in_use pairs)) ∥₁ },
    ghost empty: { (i j : ℕ) → length (in_use pairs) ≤ j → flag required.cells i j ≡ false },
}

impl RuleTable {
    ghost use Rattle.rules.specs.Tables.{means};

    /// A table without rules.
    pub fn new() -> Self
        ensures { means result ≡ no_rules }
    {
        RuleTable {
            inclusions: Flags::new(),
            exclusions: Flags::new(),
            required: Flags::new(),
            roles: Flags::new(),
            pairs: PairList::new(),
        }
    }

    /// How many pairs are in use. A caller also learns what every table keeps: rules and pairs are in range,
    /// the pairs are distinct and at most 32, every required partner has its pair among them,
    /// and both spellings of a rule are accepted together.
    pub fn pair_count(&self) -> usize
        ensures counts { result ≡ length (means self.now).pairs }
        ensures keeps { Proper (means self.now) }
    {
        self.pairs.len()
    }

    /// The pair with a number, counted from 0 in order of first use.
    pub fn pair(&self, number: usize) -> Option<Pair>
        ensures { result ≡ slice_get (means self.now).pairs number }
    {
        self.pairs.get(number)
    }

    /// Whether the rule was accepted, in this spelling or its other.
    pub fn has(&self, rule: Rule) -> bool
        ensures { result ≡ (means self.now).rules rule }
    {
        check_rule(rule).is_ok() && self.is_noted(rule)
    }

    /// Whether the flag of a rule in range is set.
    fn is_noted(&self, rule: Rule) -> bool
        requires { rule_within rule ≡ true }
        ensures { result ≡ (means self.now).rules rule }
    {
        match rule {
            Rule::Inclusion(sub, sup) => self.inclusions.is_set(mark_code(sub), mark_code(sup)),
            Rule::Exclusion(one, other) => self.exclusions.is_set(mark_code(one), mark_code(other)),
            Rule::Required(mark, role, kind) => self.is_required(mark, Pair { role, kind }),
            Rule::RoleInclusion(sub, sup) => {
                self.roles.is_set(sub.code() as usize, sup.code() as usize)
            }
        }
    }

    /// Whether the flag of a mark and a pair is set.
    fn is_required(&self, mark: Mark, pair: Pair) -> bool
        ensures { result ≡ (has_pair (means self.now).pairs pair && flag self.now.required.cells (mark_code mark) (number_of (means self.now).pairs pair)) }
    {
        self.pairs
            .number(pair)
            .is_some_and(|number| self.required.is_set(mark_code(mark), number))
    }

    /// Enters a rule: refuses the first number that is out of range, knows a rule accepted before,
    /// refuses a new pair while 32 are in use, and else accepts the rule.
    pub fn enter(&mut self, rule: Rule) -> Result<Entry, BookFault>
        ensures replies { result ≡ rule_reply (means self.old) rule }
        ensures holds { means self.new ≡ rule_after (means self.old) rule }
    {
        check_rule(rule)?;
        if self.has(rule) {
            return Ok(Entry::Known);
        }
        self.accept(rule)
    }

    /// Accepts a rule in range, unless it needs a new pair while 32 are in use.
    fn accept(&mut self, rule: Rule) -> Result<Entry, BookFault>
        requires { rule_within rule ≡ true }
        ensures replies { result ≡ (if has_room (means self.old).pairs rule then Ok New else Err NoRoom) }
        ensures holds { means self.new ≡ (if has_room (means self.old).pairs rule then gained (means self.old) rule else means self.old) }
    {
        match rule {
            Rule::Inclusion(sub, sup) => self.inclusions.set(mark_code(sub), mark_code(sup)),
            Rule::Exclusion(left, right) => note_exclusion(&mut self.exclusions, left, right),
            Rule::Required(mark, role, kind) => {
                let number = self.pairs.take_number(Pair { role, kind })?;
                self.required.set(mark_code(mark), number);
            }
            Rule::RoleInclusion(sub, sup) => note_role_inclusion(&mut self.roles, sub, sup),
        }
        Ok(Entry::New)
    }
}

// Two functions for the two sorts of rule that have another spelling: what they share is two calls of `set`, and a
// common one, over the size and four codes, would be no shorter than these.

/// Sets the flags of an exclusion in both its spellings.
fn note_exclusion(flags: &mut Flags<128, 128>, left: Mark, right: Mark)
    requires left_within { mark_within left ≡ true }
    requires right_within { mark_within right ≡ true }
    ensures { (i j : ℕ) → flag flags.new.cells i j ≡ ((i == mark_code right && j == mark_code left) || ((i == mark_code left && j == mark_code right) || flag flags.old.cells i j)) }
{
    let (row, column) = (mark_code(left), mark_code(right));
    flags.set(row, column);
    flags.set(column, row);
}

/// Sets the flags of a role inclusion in both its spellings.
fn note_role_inclusion(flags: &mut Flags<64, 64>, sub: Role, sup: Role)
    requires sub_within { role_within sub ≡ true }
    requires sup_within { role_within sup ≡ true }
    ensures { (i j : ℕ) → flag flags.new.cells i j ≡ ((i == (code (inverse sub)) && j == (code (inverse sup))) || ((i == (code sub) && j == (code sup)) || flag flags.old.cells i j)) }
{
    flags.set(sub.code() as usize, sup.code() as usize);
    flags.set(sub.inverse().code() as usize, sup.inverse().code() as usize);
}
