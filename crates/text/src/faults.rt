//! Why a line is refused.
ghost use Rattle.std.specs.Prelude.{◌≡◌, ◌≤◌, length};
ghost use Rattle.text.specs.Faults.{from_book, from_unreadable};
ghost use Rattle.text.specs.Format.{line_number, layer_of, field_of};

use league::faults::BookFault;

/// A line cannot be read: the number of its first misformed, missing or extra field, from 1.
#[derive(Clone, Copy, PartialEq, Eq)]
pub struct Unreadable(pub usize);

/// Why a line is refused: it cannot be read, or the register refuses what it says.
#[derive(Clone, Copy, PartialEq, Eq)]
pub enum LineFault {
    /// The register's refusal, whole.
    Book(BookFault),
    Unreadable(Unreadable),
}

impl LineFault {
    /// The number of the refusal.
    pub fn number(self) -> u8
        ensures { result ≡ line_number self }
    {
        // A number, as of a register's refusal.
        match self {
            Self::Book(fault) => fault.number(),
            Self::Unreadable(_) => 12,
        }
    }

    /// Where the refusal comes from: text, store or book.
    pub fn layer(self) -> &'static str
        ensures word { result.now ≡ layer_of self }
        ensures short { length result.now ≤ 5 }
    {
        // A word and no enum with a `Display`: it is printed and nothing else, by a push that states its length.
        match self {
            Self::Book(BookFault::Store(_)) => "store",
            Self::Book(_) => "book",
            Self::Unreadable(_) => "text",
        }
    }

    /// The number of the field at fault, or 1 where the refusal tells none.
    pub fn field(self) -> usize
        ensures { result ≡ field_of self }
    {
        // A number and no `Option`: a field is printed of every refusal, and where it tells none that of the letter.
        match self {
            Self::Book(fault) => fault.place().map_or(1, |place| usize::from(place.0) + 1),
            Self::Unreadable(at) => at.0,
        }
    }
}

/// The register's refusal is one of the line's.
impl From<BookFault> for LineFault {
    ghost from_gives = { λ fault r. r ≡ from_book fault };

    fn from(fault: BookFault) -> LineFault {
        LineFault::Book(fault)
    }
}

/// A line that cannot be read is refused.
impl From<Unreadable> for LineFault {
    ghost from_gives = { λ fault r. r ≡ from_unreadable fault };

    fn from(fault: Unreadable) -> LineFault {
        LineFault::Unreadable(fault)
    }
}
