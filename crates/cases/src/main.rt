//! Worked cases that are run: what they print is compared with what they should.
#![tactic(auto)]

mod filling;
mod lines;
mod stores;
mod texts;

use league::facts::{Fact, Kind, Name};

/// What lent records hold before a store is opened over them: any fact.
const BLANK: Fact = Fact::Is(Kind(0), Name(0));

fn main(rt: HostRuntime) -> anyhow::Result<()> {
    lines::all(&rt)?;
    stores::all(&rt)?;
    filling::all(&rt)?;
    texts::all(&rt)
}
