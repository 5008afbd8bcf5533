//! The run: every line of a text is carried out on a register, and what became of it is printed.
ghost use Rattle.std.specs.Prelude.{◌≡◌, ◌+◌, ◌<◌, ◌≤◌, ◌∷◌, length};
ghost use Rattle.store.specs.Records.{record_limit};
ghost use Rattle.certain.specs.Reference.{accepted_by};
ghost use Rattle.text.specs.Lines.{lines};
ghost use Rattle.text.specs.Pages.{shown, put_all};
ghost use Rattle.text.specs.Runs.{outcome, after_line, outputs, printed, Filled};

use crate::faults::LineFault;
use crate::page::OutputPage;
use crate::pieces::Pieces;
use crate::reader::read_line;
use crate::render::render;
use certain::register::Register;
use league::facts::{Entry, Fact};
use league::faults::BookFault;
use store::contract::Store;
use store::records::RecordStore;

/// How many names a run has.
pub const NAMES: u16 = 1024;

/// Carries out a line on a register.
pub fn carry_out_line<S: Store>(register: &mut Register<S>, line: &[u8]) -> Result<Entry, LineFault>
    ensures replies { result ≡ outcome (accepted_by S.means register.old) line.now }
    ensures holds { accepted_by S.means register.new ≡ after_line (accepted_by S.means register.old) line.now }
{
    let call = read_line(line)?;
    Ok(register.enter(call)?)
}

/// Carries out every line of a text and prints what became of each, as long as the page has room.
#[tactic(auto, using(crate::proofs::Cuts::pieces_few))]
fn print_lines<S: Store>(text: &[u8], register: &mut Register<S>, page: &mut OutputPage)
    ensures lent { page.new.bytes.ghost_name ≡ page.old.bytes.ghost_name }
    ensures printed { shown page.new ≡ put_all (shown page.old) (outputs (accepted_by S.means register.old) 1 (lines text.now)) }
{
    // Counted by hand: with `enumerate`, which counts from 0, each line's number would be one more than the count, here and in
    // what holds of the loop.
    let mut number = 0;
    for line in Pieces::new(text, b'\n') {
        number += 1;
        let outcome = carry_out_line(register, line);
        page.put(render(number, outcome).as_str());
    }
}

/// Carries out a text on a fresh register of 1,024 names over the lent records, and prints what became of each line on
/// the page: the number of bytes written, or the refusal of a page that is too short.
pub fn run(text: &[u8], records: &mut [Fact], page: &mut [u8]) -> Result<usize, BookFault>
    ensures { Filled (printed 1024 (record_limit records.old) text.now) page.old page.new result }
{
    let mut store = RecordStore::open(records, NAMES);
    let mut register = Register::new(&mut store);
    let mut output = OutputPage::new(page);
    print_lines(text, &mut register, &mut output);
    output.result()
}
