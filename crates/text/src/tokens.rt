//! The tokens of a line.

// An enum of its own: the project's form for a token is one whose cases hold parts of the line with their field number; a
// `Result` would be as short.
/// A field of a line as a part of it, or the lack of one, with the field's number.
#[derive(Clone, Copy)]
pub enum Token<'a> {
    Field(&'a [u8], usize),
    /// There is no field, or an empty one, which is misformed wherever it stands.
    Missing(usize),
}
