//! Names, kinds and links are three sorts of number; facts are stated over them.

/// A person, club or anything else that a register speaks of, by its number.
#[derive(Clone, Copy, PartialEq, Eq, PartialOrd, Ord)]
pub struct Name(pub u16);

/// A sort of entry, such as "is a trainer" (a concept name of description logic).
#[derive(Clone, Copy, PartialEq, Eq)]
pub struct Kind(pub u16);

/// A relation between two entries, such as "works for" (a role name of description logic).
#[derive(Clone, Copy, PartialEq, Eq)]
pub struct Link(pub u16);

/// A kind with one name, or a link with two: from the first to the second.
#[derive(Clone, Copy, PartialEq, Eq)]
pub enum Fact {
    Is(Kind, Name),
    Joins(Link, Name, Name),
}

/// What became of an entry that was not refused: it is new, or was known before.
#[derive(Clone, Copy, PartialEq, Eq)]
pub enum Entry {
    New,
    Known,
}
