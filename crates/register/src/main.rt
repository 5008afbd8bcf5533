//! The program `register`: lines of text from standard input, what became of each to standard output.
#![tactic(auto)]

ghost use Rattle.std.specs.Prelude.{◌≤◌, length, IfOk};

use anyhow::ensure;
use league::facts::{Fact, Kind, Name};
use std::io;
use std::io::{Read, Write};
use text::runs::run;
use text::scan::find_byte;

/// How many bytes of input are read, and how many bytes of output there is room for.
const BYTES: usize = 32_768;

/// How many facts the register can hold.
const RECORDS: usize = 512;

// A loop and no `read_to_end`, which fills a `Vec`: the register allocates nothing.
/// Reads until the input ends or the bytes are full, and tells how many were read.
fn read_text(rt: &HostRuntime, bytes: &mut [u8]) -> io::Result<usize>
    ensures { IfOk result (λ n. n ≤ length bytes.old) }
{
    let mut input = rt.stdin();
    let mut len = 0;
    while len < bytes.len() {
        let more = input.read(&mut bytes[len..])?;
        if more == 0 {
            break;
        }
        len += more;
    }
    Ok(len)
}

/// Runs the text of standard input and prints the whole output lines that fit.
fn serve(rt: &HostRuntime) -> anyhow::Result<()> {
    let mut text = [0; BYTES];
    let len = read_text(rt, &mut text)?;
    if len == BYTES {
        eprintln!(rt; "register: {BYTES} bytes of input were read; anything after them was not")?;
    }
    let mut records = [Fact::Is(Kind(0), Name(0)); RECORDS];
    let mut page = [0; BYTES];
    let outcome = run(&text[..len], &mut records, &mut page);
    // The page was cleared, and no output line has a byte 0.
    rt.stdout().write_all(&page[..find_byte(&page, 0)])?;
    ensure!(
        outcome.is_ok(),
        "the output was cut after {BYTES} bytes or fewer"
    );
    Ok(())
}

fn main(rt: HostRuntime) -> anyhow::Result<()> {
    serve(&rt)
}
