//! Why a call is refused: each refusal has a number, and some tell the argument at fault.
ghost use Rattle.std.specs.Prelude.{◌≡◌};
ghost use Rattle.league.specs.Faults.{store_number, book_number, store_place, book_place, from_store};

/// The argument of a call that is at fault, counted from 1 from the left.
#[derive(Clone, Copy, PartialEq, Eq)]
pub struct Place(pub u16);

/// Why a store refuses a fact.
#[derive(Clone, Copy, PartialEq, Eq)]
pub enum StoreFault {
    /// A kind above 63.
    Kind(Place),
    /// A link above 31.
    Link(Place),
    /// A name that the store does not have.
    Name(Place),
    /// The fact is new, and the store has as many facts as it may.
    Full,
}

impl StoreFault {
    /// The number of the refusal.
    // A number and no enum: it is what a reply to a call prints of the refusal.
    pub fn number(self) -> u8
        ensures { result ≡ store_number self }
    {
        match self {
            StoreFault::Kind(_) => 1,
            StoreFault::Link(_) => 2,
            StoreFault::Name(_) => 3,
            StoreFault::Full => 4,
        }
    }

    /// The argument at fault, where the refusal tells one.
    pub fn place(self) -> Option<Place>
        ensures { result ≡ store_place self }
    {
        match self {
            Self::Kind(place) | Self::Link(place) | Self::Name(place) => Some(place),
            Self::Full => None,
        }
    }
}

/// Why a register refuses a call: its store does, or it does so itself.
#[derive(Clone, Copy, PartialEq, Eq)]
pub enum BookFault {
    /// The store's refusal, whole.
    Store(StoreFault),
    /// A kind above 63 in a rule or a question.
    Kind(Place),
    /// A link above 31 in a rule or a question.
    Link(Place),
    /// A name in a question: above 1,023, or one that the store does not have.
    Name(Place),
    /// A new pair of a required-partner rule while 32 are in use.
    Pairs,
    /// More than 16 atoms, or more than eight distinct terms.
    Size,
    /// A variable above v7.
    Variable(Place),
    /// More than four answer variables, no atom, or an answer variable in no atom.
    Answers,
    /// No world fits what is accepted.
    Contradiction,
    /// The page is too short.
    Page,
    /// The cells are no match.
    Match,
}

impl BookFault {
    /// The number of the refusal.
    pub fn number(self) -> u8
        ensures { result ≡ book_number self }
    {
        // A number, as of a store's refusal.
        match self {
            BookFault::Store(fault) => fault.number(),
            BookFault::Kind(_) => 1,
            BookFault::Link(_) => 2,
            BookFault::Name(_) => 3,
            BookFault::Pairs => 5,
            BookFault::Size => 6,
            BookFault::Variable(_) => 7,
            BookFault::Answers => 8,
            BookFault::Contradiction => 9,
            BookFault::Page => 10,
            BookFault::Match => 11,
        }
    }

    /// The argument at fault, where the refusal tells one: the store's refusal tells its own.
    pub fn place(self) -> Option<Place>
        ensures { result ≡ book_place self }
    {
        match self {
            Self::Store(fault) => fault.place(),
            Self::Kind(place) | Self::Link(place) => Some(place),
            Self::Name(place) | Self::Variable(place) => Some(place),
            Self::Pairs | Self::Size | Self::Answers => None,
            Self::Contradiction | Self::Page | Self::Match => None,
        }
    }
}

/// A store's refusal is one of the register's.
impl From<StoreFault> for BookFault {
    ghost from_gives = { λ fault r. r ≡ from_store fault };

    fn from(fault: StoreFault) -> BookFault {
        BookFault::Store(fault)
    }
}
