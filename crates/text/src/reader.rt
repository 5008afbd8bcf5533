//! What a line means: the first letter decides its form.
ghost use Rattle.std.specs.Prelude.{◌≡◌};
ghost use Rattle.text.specs.Lines.{fields as fields_of};
ghost use Rattle.text.specs.Tokens.{unread, at_end};
ghost use Rattle.text.specs.Grammar.{and_then, by_letter, reading};
ghost use Rattle.text.specs.Written.{Means};

use crate::faults::Unreadable;
use crate::fields::Fields;
use crate::forms::Letter;
use certain::calls::Call;
use league::facts::{Fact, Kind, Link, Name};
use league::rules::Rule;

/// The call, where all fields are read.
fn complete(call: Call, fields: &Fields) -> Result<Call, Unreadable>
    ensures { result ≡ and_then (at_end (unread fields.now).number (unread fields.now).fields) (λ _. Ok call) }
{
    fields.end()?;
    Ok(call)
}

/// The rest of a line that begins with this letter.
fn read_rest(letter: Letter, fields: &mut Fields) -> Result<Call, Unreadable>
    requires { (unread fields.old).number ≡ 2 }
    ensures { result ≡ by_letter letter.0 (unread fields.old).fields }
{
    match letter.0 as char {
        'K' => {
            let fact = Fact::Is(Kind(fields.read()?), Name(fields.read()?));
            complete(Call::EnterFact(fact), fields)
        }
        'L' => {
            let link = Link(fields.read()?);
            let fact = Fact::Joins(link, Name(fields.read()?), Name(fields.read()?));
            complete(Call::EnterFact(fact), fields)
        }
        'R' => {
            let rule = Rule::Inclusion(fields.read()?, fields.read()?);
            complete(Call::EnterRule(rule), fields)
        }
        'N' => {
            let rule = Rule::Exclusion(fields.read()?, fields.read()?);
            complete(Call::EnterRule(rule), fields)
        }
        'S' => {
            let rule = Rule::Required(fields.read()?, fields.read()?, fields.read()?);
            complete(Call::EnterRule(rule), fields)
        }
        'H' => {
            let rule = Rule::RoleInclusion(fields.read()?, fields.read()?);
            complete(Call::EnterRule(rule), fields)
        }
        _ => Err(Unreadable(1)),
    }
}

/// The call that a line means, or its first misformed, missing or extra field.
pub fn read_line(line: &[u8]) -> Result<Call, Unreadable>
    ensures value { result ≡ reading (fields_of line.now) }
    ensures grammar { Means line.now result }
{
    let mut fields = Fields::new(line);
    let letter = fields.read()?;
    read_rest(letter, &mut fields)
}
