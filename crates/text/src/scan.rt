//! Looking for a byte, and cutting bytes where it stands.
ghost use Rattle.std.specs.Prelude.{◌≡◌, ◌==◌, ◌≤◌, length, position};
ghost use Rattle.text.specs.Lines.{first_at};
ghost use Rattle.text.specs.Pieces.{Splits};

/// The index of the first such byte, where there is one.
fn position(bytes: &[u8], byte: u8) -> Option<usize>
    ensures { result ≡ position (λ b. b == byte) bytes.now }
{
    bytes.iter().position(|b| *b == byte)
}

// No `Option`: callers take the bytes before it, which are all where there is none.
/// The index of the first such byte, or the length where there is none.
pub fn find_byte(bytes: &[u8], byte: u8) -> usize
    ensures value { result ≡ first_at byte bytes.now }
    ensures within { result ≤ length bytes.now }
{
    position(bytes, byte).unwrap_or(bytes.len())
}

/// The bytes before the first such byte, and those after it where there is one.
pub fn split_at_first(bytes: &[u8], byte: u8) -> (&[u8], Option<&[u8]>)
    ensures { Splits byte bytes.now result }
{
    match position(bytes, byte) {
        Some(end) => (&bytes[..end], Some(&bytes[end + 1..])),
        None => (bytes, None),
    }
}
