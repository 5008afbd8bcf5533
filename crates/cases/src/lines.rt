//! Texts, with the output that each gives on a page of a given length.
use crate::BLANK;
use league::facts::Fact;
use std::io::Write;
use text::runs::run;
use text::scan::find_byte;

/// The most records that a case is lent.
const RECORDS: usize = 512;

/// The longest page that a case is lent.
const PAGE: usize = 65_536;

// A tuple: in a struct each row of the tables would say its four names.
/// A title, a text, and how many records and bytes of output it is lent.
type Case<'a> = (&'static str, &'a [u8], usize, usize);

/// How lines are spelt.
const SPELLING: [Case<'static>; 9] = [
    ("no bytes", b"", RECORDS, PAGE),
    ("no last byte 10", b"K 1 0", RECORDS, PAGE),
    ("empty lines", b"\n\nK 1 0\n\n", RECORDS, PAGE),
    (
        "a line of one letter",
        b"K\nL\nR\nN\nS\nH\nQ\nX\nk\n",
        RECORDS,
        PAGE,
    ),
    (
        "spaces",
        b" K 1 0\nK  1 0\nK 1  0\nK 1 0 \nK 1 \nK 1\n",
        RECORDS,
        PAGE,
    ),
    ("first fields", b"KK 1 0\nK1 0\nX 1 0\n", RECORDS, PAGE),
    (
        "numbers",
        b"K 00 0\nK 01 0\nK +1 0\nK -1 0\nK 10000 0\nK 9999 0\nK 0 9999\nK 0 0\n",
        RECORDS,
        PAGE,
    ),
    (
        "other bytes",
        b"K 1 0\r\nK\t1 0\nK 1 \xff\nK 1 \x00\n",
        RECORDS,
        PAGE,
    ),
    (
        "unreadable before out of range",
        b"K 64 x\nL 32 1024 y\n",
        RECORDS,
        PAGE,
    ),
];

/// Facts and rules that are entered, and those that are refused.
const ENTERING: [Case<'static>; 8] = [
    (
        "facts",
        b"K 63 1023\nK 63 1023\nL 31 0 1023\nL 31 1023 0\nL 31 0 1023\n",
        RECORDS,
        PAGE,
    ),
    (
        "order of refusals",
        b"K 64 9999\nK 63 1024\nL 32 1024 1024\nL 31 1024 1024\nL 31 0 1024\n",
        RECORDS,
        PAGE,
    ),
    ("one record", b"K 1 0\nK 1 1\nK 1 0\nK 64 0\n", 1, PAGE),
    ("no records", b"K 1 0\nK 1 0\n", 0, PAGE),
    (
        "rules",
        b"R k1 f1\nR k1 f1\nR f1 f2\nH f1 f2\nH b1 b2\nN k1 k2\nN k2 k1\nR k1 k1\nS k1 f1 k2\nS k1 f1 k2\nS k1 b1 k2\n",
        RECORDS,
        PAGE,
    ),
    (
        "rules turned",
        b"H f3 b3\nH b3 f3\nH f4 f4\nH b4 b4\nN f5 b5\nN b5 f5\n",
        RECORDS,
        PAGE,
    ),
    (
        "rules refused",
        b"R k64 f32\nR k1 f32\nN f32 k64\nN b31 k64\nS k64 f32 k64\nS k1 f32 k64\nS k1 f31 k64\nH f32 b32\nH f31 b32\n",
        RECORDS,
        PAGE,
    ),
    (
        "rules misformed",
        b"R k1\nR k1 f1 f2\nR 1 f1\nH k1 f1\nH f1 k1\nS k1 f1 f2\nS k1 k2 k3\nS k1 f1\nR k01 f1\nR k f1\nQ 0 k1 v0\n",
        RECORDS,
        PAGE,
    ),
];

/// More pairs of required-partner rules than there may be.
const PAIRS: [Case<'static>; 1] = [(
    "33 pairs",
    b"S k0 f0 k0\nS k0 f1 k0\nS k0 f2 k0\nS k0 f3 k0\nS k0 f4 k0\nS k0 f5 k0\nS k0 f6 k0\nS k0 f7 k0\nS k0 f8 k0\nS k0 f9 k0\nS k0 f10 k0\nS k0 f11 k0\nS k0 f12 k0\nS k0 f13 k0\nS k0 f14 k0\nS k0 f15 k0\nS k0 f16 k0\nS k0 f17 k0\nS k0 f18 k0\nS k0 f19 k0\nS k0 f20 k0\nS k0 f21 k0\nS k0 f22 k0\nS k0 f23 k0\nS k0 f24 k0\nS k0 f25 k0\nS k0 f26 k0\nS k0 f27 k0\nS k0 f28 k0\nS k0 f29 k0\nS k0 f30 k0\nS k0 f31 k0\nS k0 f0 k1\nS k1 f0 k0\nS k0 f0 k1\nS k0 f0 k0\n",
    RECORDS,
    PAGE,
)];

/// Two lines that print `ok` and `known`, one that cannot be read, and a last one.
const FOUR_LINES: &[u8] = b"K 1 0\nK 1 0\nX\nK 2 0\n";

/// Pages that are too short, and one that is just long enough.
const PAGES: [Case<'static>; 6] = [
    ("a page of 0 bytes", FOUR_LINES, RECORDS, 0),
    ("a page of 3 bytes", FOUR_LINES, RECORDS, 3),
    ("a page of 8 bytes", FOUR_LINES, RECORDS, 8),
    ("a page of 26 bytes", FOUR_LINES, RECORDS, 26),
    ("a page of 27 bytes", FOUR_LINES, RECORDS, 27),
    ("a page of 0 bytes and no lines", b"", RECORDS, 0),
];

/// Runs a text over lent records and a lent page, and prints the result and the page up to its first byte 0.
pub(crate) fn show_on(
    rt: &HostRuntime,
    title: &str,
    text: &[u8],
    records: &mut [Fact],
    page: &mut [u8],
) -> anyhow::Result<()> {
    match run(text, records, page) {
        Ok(len) => println!(rt; "# {title}: {len} bytes")?,
        Err(fault) => {
            let number = fault.number();
            println!(rt; "# {title}: refusal {number}")?;
        }
    }
    rt.stdout().write_all(&page[..find_byte(page, 0)])?;
    Ok(())
}

/// Runs a text over so many records and so many bytes of output.
fn show(rt: &HostRuntime, case: &Case) -> anyhow::Result<()> {
    let (title, text, records, page) = *case;
    let mut store = [BLANK; RECORDS];
    let mut bytes = [0; PAGE];
    let store = &mut store[..records.min(RECORDS)];
    show_on(rt, title, text, store, &mut bytes[..page.min(PAGE)])
}

/// Runs each of some texts.
fn show_each(rt: &HostRuntime, cases: &[Case]) -> anyhow::Result<()> {
    for case in cases {
        show(rt, case)?;
    }
    Ok(())
}

/// A long line, and many lines on a short page.
fn long(rt: &HostRuntime) -> anyhow::Result<()> {
    let line = [b'K'; 40_000];
    show(rt, &("a line of 40000 bytes", &line, RECORDS, PAGE))?;
    let empty = [b'\n'; 2_000];
    show(
        rt,
        &(
            "2000 empty lines on a page of 40 bytes",
            &empty,
            RECORDS,
            40,
        ),
    )
}

pub(crate) fn all(rt: &HostRuntime) -> anyhow::Result<()> {
    show_each(rt, &SPELLING)?;
    show_each(rt, &ENTERING)?;
    show_each(rt, &PAIRS)?;
    show_each(rt, &PAGES)?;
    long(rt)
}
