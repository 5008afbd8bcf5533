//! The forms that a field can have: a bare number, a kind, a role or a mark with its letter.
ghost use Rattle.std.specs.Prelude.{◌≡◌, ◌≤◌, length, Option};
ghost use Rattle.text.specs.Lines.{Bytes};
ghost use Rattle.text.specs.Forms.{plain, digits_form, numeral, letter as one_letter, lettered, kind_form, role_form, mark_form};

use league::facts::{Kind, Link};
use league::roles::{Mark, Role};

// No `TryFrom<&[u8]>`, which this crate may not write for `u16`.
/// What a field of a line can say.
pub trait FieldForm: Copy {
    ghost form: { Bytes → Option Self };

    /// What the field says, where it is well formed.
    fn read(part: &[u8]) -> Option<Self>
        ensures { result ≡ form part.now };
}

// A byte: an enum of the six letters would be matched twice, here and where a line's form is chosen.
/// The letter that a line begins with.
#[derive(Clone, Copy, PartialEq, Eq)]
pub struct Letter(pub u8);

/// One to four digits without leading zeros.
impl FieldForm for u16 {
    ghost form = { numeral };

    fn read(part: &[u8]) -> Option<u16> {
        if is_plain(part) {
            read_digits(part)
        } else {
            None
        }
    }
}

/// One to four bytes that do not begin with 0, unless it is alone.
fn is_plain(part: &[u8]) -> bool
    ensures { result ≡ plain part.now }
{
    match part {
        [] => false,
        [_] => true,
        [first, ..] => part.len() <= 4 && *first != b'0',
    }
}

/// The number that at most four digits write, where all are digits.
fn read_digits(digits: &[u8]) -> Option<u16>
    requires { length digits.now ≤ 4 }
    ensures { result ≡ digits_form digits.now }
{
    // A loop: `str::parse` also reads a sign, and in the closure of a `try_fold` nothing bounds the number so far.
    let mut number = 0;
    for digit in digits {
        if !digit.is_ascii_digit() {
            return None;
        }
        number = 10 * number + u16::from(*digit - b'0');
    }
    Some(number)
}

/// A single byte.
impl FieldForm for Letter {
    ghost form = { one_letter };

    fn read(part: &[u8]) -> Option<Letter> {
        match part {
            [byte] => Some(Letter(*byte)),
            _ => None,
        }
    }
}

/// A letter with a number after it.
#[derive(Clone, Copy, PartialEq, Eq)]
pub struct Lettered {
    pub letter: u8,
    pub number: u16,
}

/// Splits a field into its first byte and the number after it.
fn read_lettered(part: &[u8]) -> Option<Lettered>
    ensures { result ≡ lettered part.now }
{
    let [letter, digits @ ..] = part else {
        return None;
    };
    let letter = *letter;
    let number = u16::read(digits)?;
    Some(Lettered { letter, number })
}

/// The letter k and a number.
impl FieldForm for Kind {
    ghost form = { kind_form };

    fn read(part: &[u8]) -> Option<Kind> {
        let Lettered { letter, number } = read_lettered(part)?;
        match letter {
            b'k' => Some(Kind(number)),
            _ => None,
        }
    }
}

/// The letter f or b and a number.
impl FieldForm for Role {
    ghost form = { role_form };

    fn read(part: &[u8]) -> Option<Role> {
        let Lettered { letter, number } = read_lettered(part)?;
        match letter {
            b'f' => Some(Role::Forward(Link(number))),
            b'b' => Some(Role::Backward(Link(number))),
            _ => None,
        }
    }
}

/// A kind, or a role for having some partner by it.
impl FieldForm for Mark {
    ghost form = { mark_form };

    fn read(part: &[u8]) -> Option<Mark> {
        Kind::read(part)
            .map(Mark::Is)
            .or_else(|| Role::read(part).map(Mark::Has))
    }
}
