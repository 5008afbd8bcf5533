//! The fields of a line, taken one after the other.
ghost use Rattle.std.specs.Prelude.{◌+◌, ◌*◌, ◌^◌, ◌≤◌, length};
ghost use Rattle.std.specs.Option.{option_map_or};

use crate::faults::Unreadable;
use crate::forms::FieldForm;
use crate::scan::split_at_first;
use crate::tokens::Token;

/// What is left of a line: its fields are separated by single spaces and stay parts of the text.
// No model: clauses say `unread`, which is as short.
#[derive(Drop)]
pub struct Fields<'a> {
    /// The bytes from the next field on, where there is one.
    rest: Option<&'a [u8]>,
    /// The number of the next field, from 1.
    number: usize,
    ghost small: { 2 * number + option_map_or (λ r. length r.now + 1) rest 0 ≤ 2 ^ 64 + 2 },
}

impl<'a> Fields<'a> {
    ghost use Rattle.std.specs.Prelude.{◌≡◌};
    ghost use Rattle.text.specs.Lines.{fields as fields_of};
    ghost use Rattle.text.specs.Tokens.{unread_from, unread, Took, ReadField, at_end};

    /// All fields of a line.
    pub fn new(line: &'a [u8]) -> Fields<'a>
        ensures { unread result ≡ unread_from 1 (fields_of line.now) }
    {
        Fields {
            rest: Some(line),
            number: 1,
        }
    }

    /// Takes the next field. One that is missing, or is empty and so misformed wherever it stands, is left where it is.
    pub fn next_token(&mut self) -> Token<'a>
        ensures { Took (unread self.old) result (unread self.new) }
    {
        let number = self.number;
        let Some(rest) = self.rest else {
            return Token::Missing(number);
        };
        let (field, after) = split_at_first(rest, b' ');
        if field.is_empty() {
            return Token::Missing(number);
        }
        self.rest = after;
        self.number = number + 1;
        Token::Field(field, number)
    }

    /// What the next field says, where it is well formed.
    pub fn read<T: FieldForm>(&mut self) -> Result<T, Unreadable>
        ensures { ReadField T.form (unread self.old) result (unread self.new) }
    {
        match self.next_token() {
            Token::Field(field, number) => T::read(field).ok_or(Unreadable(number)),
            Token::Missing(number) => Err(Unreadable(number)),
        }
    }

    /// Nothing where all fields are read, else the number of the next one, which is extra.
    pub fn end(&self) -> Result<(), Unreadable>
        ensures { result ≡ at_end (unread self.now).number (unread self.now).fields }
    {
        match self.rest {
            Some(_) => Err(Unreadable(self.number)),
            None => Ok(()),
        }
    }
}
