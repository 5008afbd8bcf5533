//! Stores as they are opened, and what they answer.
use crate::BLANK;
use league::facts::{Entry, Fact, Kind, Link, Name};
use league::faults::StoreFault;
use std::fmt;
use store::bits::BitStore;
use store::contract::Store;
use store::records::RecordStore;

/// What an entry returned.
#[derive(Clone, Copy)]
struct Outcome(Result<Entry, StoreFault>);

impl fmt::Display for Outcome {
    fn fmt<W: fmt::Write>(&self, f: &mut fmt::Formatter<W>) -> fmt::Result {
        match self.0 {
            Ok(Entry::New) => write!(f, "ok"),
            Ok(Entry::Known) => write!(f, "known"),
            Err(fault) => write!(f, "{}", fault.number()),
        }
    }
}

/// Prints what a store tells of itself.
fn tell<S: Store>(rt: &HostRuntime, title: &str, store: &S) -> anyhow::Result<()> {
    let names = store.names();
    let limit = store.limit();
    let count = store.count();
    println!(rt; "# {title}: {names} names, limit {limit}, {count} facts")?;
    Ok(())
}

/// Enters two facts twice and one that is out of range, and prints the answers.
fn enter<S: Store>(rt: &HostRuntime, store: &mut S) -> anyhow::Result<()> {
    let kind = Fact::Is(Kind(63), Name(1));
    let link = Fact::Joins(Link(31), Name(1), Name(0));
    let first = Outcome(store.enter(kind));
    let second = Outcome(store.enter(link));
    let again = Outcome(store.enter(kind));
    let third = Outcome(store.enter(Fact::Joins(Link(31), Name(0), Name(2))));
    let held = store.has(link);
    let other = store.has(Fact::Joins(Link(31), Name(0), Name(1)));
    println!(rt; "{first} {second} {again} {third} {held} {other}")?;
    Ok(())
}

fn records(rt: &HostRuntime) -> anyhow::Result<()> {
    let mut lent = [BLANK; 2];
    let mut store = RecordStore::open(&mut lent, 2);
    tell(rt, "two records, 2 names", &store)?;
    enter(rt, &mut store)?;
    tell(rt, "the same", &store)?;
    let mut one = [BLANK; 1];
    let mut store = RecordStore::open(&mut one, 2);
    enter(rt, &mut store)?;
    let mut many = [BLANK; 65_537];
    tell(
        rt,
        "65537 records, 1024 names",
        &RecordStore::open(&mut many, 1024),
    )?;
    tell(
        rt,
        "65537 records, 1025 names",
        &RecordStore::open(&mut many, 1025),
    )
}

fn bits(rt: &HostRuntime) -> anyhow::Result<()> {
    let mut few = [255u8; 31];
    tell(rt, "31 bytes, 2 names", &BitStore::open(&mut few, 2))?;
    let mut bytes = [255u8; 33];
    let mut store = BitStore::open(&mut bytes, 2);
    tell(rt, "33 bytes, 2 names", &store)?;
    enter(rt, &mut store)?;
    tell(rt, "the same", &store)?;
    tell(rt, "33 bytes, 0 names", &BitStore::open(&mut bytes, 0))?;
    tell(
        rt,
        "33 bytes, 1025 names",
        &BitStore::open(&mut bytes, 1025),
    )?;
    println!(rt; "{:?}", bytes)?;
    Ok(())
}

pub(crate) fn all(rt: &HostRuntime) -> anyhow::Result<()> {
    records(rt)?;
    bits(rt)
}
