//! The pieces of bytes that a separator ends, as the lines of a text.
ghost use Rattle.std.specs.Prelude.{◌≡◌, []};
ghost use Rattle.text.specs.Lines.{cut};

use crate::scan::split_at_first;

/// The pieces of some bytes, each ended by the separator, which the last may lack.
#[derive(Drop)]
pub struct Pieces<'a> {
    rest: &'a [u8],
    separator: u8,
}

impl<'a> Pieces<'a> {
    ghost use Rattle.text.specs.Pieces.{pieces_left};

    /// All pieces of the bytes.
    pub fn new(bytes: &'a [u8], separator: u8) -> Pieces<'a>
        ensures { pieces_left result ≡ cut [] separator bytes.now }
    {
        Pieces {
            rest: bytes,
            separator,
        }
    }
}

impl<'a> Iterator for Pieces<'a> {
    type Item = &'a [u8];

    ghost use Rattle.std.specs.Iterator.{YieldsFirstRef, item_count};
    ghost use Rattle.text.specs.Pieces.{pieces_left};

    ghost next_gives = { YieldsFirstRef pieces_left };

    ghost remaining = { item_count pieces_left };

    fn next(&mut self) -> Option<&'a [u8]> {
        if self.rest.is_empty() {
            return None;
        }
        let (piece, after) = split_at_first(self.rest, self.separator);
        self.rest = after.unwrap_or(&[]);
        Some(piece)
    }
}
