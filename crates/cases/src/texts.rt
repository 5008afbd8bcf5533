//! Many texts from standard input, each ended by byte 30, which no line of a text needs.
use crate::BLANK;
use crate::lines::show_on;
use std::io::Read;
use text::pieces::Pieces;

/// The byte that ends a text.
const END: u8 = 30;

/// Runs one text with 512 records and 32,768 bytes of output.
fn show(rt: &HostRuntime, text: &[u8]) -> anyhow::Result<()> {
    let mut records = [BLANK; 512];
    let mut page = [0; 32_768];
    show_on(rt, "a text", text, &mut records, &mut page)
}

/// Runs each of the texts.
pub(crate) fn all(rt: &HostRuntime) -> anyhow::Result<()> {
    let mut texts = Vec::new(rt.alloc());
    rt.stdin().read_to_end(&mut texts)?;
    for text in Pieces::new(texts.as_slice(), END) {
        show(rt, text)?;
    }
    Ok(())
}
