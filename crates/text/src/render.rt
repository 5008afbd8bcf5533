//! What is printed of a line.
ghost use Rattle.std.specs.Prelude.{◌≡◌, []};
ghost use Rattle.text.specs.Format.{refusal, rendered};

use crate::faults::LineFault;
use arrayvec::ArrayString;
use itoa::Buffer;
use league::facts::Entry;

/// Room for every output line: a refusal has three numbers of at most 20 digits and few bytes besides.
pub const ROOM: usize = 80;

/// A line of output.
pub type OutputLine = ArrayString<ROOM>;

/// What is printed of the line with this number.
pub fn render(line: usize, outcome: Result<Entry, LineFault>) -> OutputLine
    ensures { result.bytes ≡ rendered line outcome }
{
    let mut output = OutputLine::new();
    match outcome {
        Ok(Entry::New) => output.push_str("ok\n"),
        Ok(Entry::Known) => output.push_str("known\n"),
        Err(fault) => push_refusal(&mut output, line, fault),
    }
    output
}

// Not by `write!`: its contract leaves open whether it fails, where a push states that there is room.
/// `no`, number, layer, line and field.
fn push_refusal(output: &mut OutputLine, line: usize, fault: LineFault)
    requires { output.old.bytes ≡ [] }
    ensures { output.new.bytes ≡ refusal line fault }
{
    let mut digits = Buffer::new();
    output.push_str("no ");
    output.push_str(digits.format(fault.number()));
    output.push_str(" ");
    output.push_str(fault.layer());
    output.push_str(" ");
    output.push_str(digits.format(line));
    output.push_str(" ");
    output.push_str(digits.format(fault.field()));
    output.push_str("\n");
}
