//! The page that whole output lines are written to, as long as they fit.
ghost use Rattle.std.specs.Prelude.{◌≤◌, length};
ghost use Rattle.std.specs.Option.{ForSome};

use league::faults::BookFault;

/// Lent bytes with the output lines so far at their front.
// No model: it would hide which bytes are lent, and `run` says what they then are.
#[derive(Drop)]
pub struct OutputPage<'a> {
    // The bytes are the caller's, of any number, and nothing is allocated: so how many are written stands beside them.
    bytes: &'a mut [u8],
    /// How many bytes are written; none once a line did not fit, after which nothing more is.
    written: Option<usize>,
    ghost within: { ForSome written (λ n. n ≤ length bytes.now) },
}

impl<'a> OutputPage<'a> {
    ghost use Rattle.std.specs.Prelude.{◌≡◌};
    ghost use Rattle.text.specs.Pages.{shown, put as put_on, fresh, result as result_of};

    /// A page on which nothing is written yet.
    pub fn new(bytes: &'a mut [u8]) -> OutputPage<'a>
        ensures fresh { shown result ≡ fresh bytes.old }
        ensures lent { result.bytes.ghost_name ≡ bytes.entry.ghost_name }
    {
        OutputPage {
            bytes,
            written: Some(0),
        }
    }

    /// Writes a line, where none was left out before and it fits.
    pub fn put(&mut self, line: &str)
        ensures lent { self.new.bytes.ghost_name ≡ self.old.bytes.ghost_name }
        ensures put { shown self.new ≡ put_on (shown self.old) line.now }
    {
        let Some(start) = self.written else {
            return;
        };
        if line.len() > self.bytes.len() - start {
            self.written = None;
            return;
        }
        let end = start + line.len();
        self.bytes[start..end].copy_from_slice(line.as_bytes());
        self.written = Some(end);
    }

    /// The number of bytes written, or the refusal of a page that was too short for a line.
    pub fn result(&self) -> Result<usize, BookFault>
        ensures { result ≡ result_of (shown self.now) }
    {
        self.written.ok_or(BookFault::Page)
    }
}
