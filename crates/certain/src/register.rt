//! A register over any store.
ghost use Rattle.std.specs.Prelude.{◌≡◌};
ghost use Rattle.store.specs.Holding.{count as counted};
ghost use Rattle.rules.specs.RuleSet.{no_rules};
ghost use Rattle.rules.specs.Tables.{means as rule_set};
ghost use Rattle.certain.specs.Reference.{accepted_by, fact_reply, fact_after, rule_replied, rule_entered, reply_to, next};

use crate::calls::Call;
use league::facts::{Entry, Fact};
use league::faults::BookFault;
use league::rules::Rule;
use rules::table::RuleTable;
use store::contract::Store;

// No model: what is accepted has a function from facts, and a model's value may hold none.
/// A store with rules.
#[derive(Drop)]
pub struct Register<S: Store> {
    store: S,
    rules: RuleTable,
}

impl<S: Store> Register<S> {
    /// A register over a store, at first without rules.
    pub fn new(store: S) -> Register<S>
        ensures store { result.store ≡ store }
        ensures rules { rule_set result.rules ≡ no_rules }
    {
        Register {
            store,
            rules: RuleTable::new(),
        }
    }

    /// How many names there are.
    pub fn names(&self) -> u16
        ensures { result ≡ (accepted_by S.means self.now).store.names }
    {
        self.store.names()
    }

    /// How many facts the register may hold.
    pub fn limit(&self) -> u32
        ensures { result ≡ (accepted_by S.means self.now).store.limit }
    {
        self.store.limit()
    }

    /// How many facts it holds.
    pub fn count(&self) -> u32
        ensures { result ≡ counted (accepted_by S.means self.now).store }
    {
        self.store.count()
    }

    /// Whether it holds the fact.
    pub fn has(&self, fact: Fact) -> bool
        ensures { result ≡ (accepted_by S.means self.now).store.facts fact }
    {
        self.store.has(fact)
    }

    /// Whether it has accepted the rule, in this spelling or its other.
    pub fn has_rule(&self, rule: Rule) -> bool
        ensures { result ≡ (accepted_by S.means self.now).book.rules rule }
    {
        self.rules.has(rule)
    }

    /// Enters a fact.
    pub fn enter_fact(&mut self, fact: Fact) -> Result<Entry, BookFault>
        ensures replies { result ≡ fact_reply (accepted_by S.means self.old) fact }
        ensures holds { accepted_by S.means self.new ≡ fact_after (accepted_by S.means self.old) fact }
    {
        Ok(self.store.enter(fact)?)
    }

    /// Enters a rule.
    pub fn enter_rule(&mut self, rule: Rule) -> Result<Entry, BookFault>
        ensures replies { result ≡ rule_replied (accepted_by S.means self.old) rule }
        ensures holds { accepted_by S.means self.new ≡ rule_entered (accepted_by S.means self.old) rule }
    {
        self.rules.enter(rule)
    }

    /// Carries out a call.
    pub fn enter(&mut self, call: Call) -> Result<Entry, BookFault>
        ensures replies { result ≡ reply_to (accepted_by S.means self.old) call }
        ensures holds { accepted_by S.means self.new ≡ next (accepted_by S.means self.old) call }
    {
        match call {
            Call::EnterFact(fact) => self.enter_fact(fact),
            Call::EnterRule(rule) => self.enter_rule(rule),
        }
    }
}
