// The desk's reading: the limit table that a reader gives, as a text or in a step file; else why there is none, as one line.
#![tactic(auto)]

ghost use Rattle.std.specs.Prelude.{◌≡◌};
ghost use Rattle.desk.specs.declared.NoTable.TheVariants.{Unreadable};

use columns::Page;
use input::ReadFailed;
use limits::Table;
use output::Unwritten;
use std::fs;
use std::io::{Read, Write};
use std::rt::Files;
use stepfile::Unread;
use tabletext::{Fault, FaultKind};
use tablewords::names::name;

// Why a reader gives no table.
#[derive(Clone, Copy, Debug, PartialEq, Eq)]
pub enum NoTable {
    Unreadable,
    // A step file, and why it is refused.
    Refused(Unread),
    TooLong,
    Wrong(Fault),
}

impl From<ReadFailed> for NoTable {
    ghost from_gives = { λ _ why. why ≡ Unreadable };

    fn from(_failed: ReadFailed) -> NoTable {
        NoTable::Unreadable
    }
}

// The table that a reader gives.
pub fn read<R: Read>(reader: &mut R) -> Result<Table, NoTable> {
    // One byte longer than the longest text and the longest good step file. Nothing is allocated.
    let mut bytes = [0u8; 65537];
    let count = input::read_all(reader, &mut bytes)?;
    table(&bytes[..count])
}

// The table that the file of a name gives; one that can not be opened can not be read.
pub fn read_file<R: Files>(files: &R, name: &str) -> Result<Table, NoTable> {
    match fs::open(files, name) {
        Ok(mut file) => read(&mut file),
        Err(_) => Err(NoTable::Unreadable),
    }
}

// What bytes give: those of a step file begin with 12 and 0, which no text that says a table does.
fn table(bytes: &[u8]) -> Result<Table, NoTable> {
    if bytes.starts_with(&[12, 0]) {
        return in_steps(bytes);
    }
    if 65536 < bytes.len() {
        return Err(NoTable::TooLong);
    }
    in_text(bytes)
}

// The table of a step file that is good, or refused with 4.
fn in_steps(file: &[u8]) -> Result<Table, NoTable> {
    match stepfile::refused(file) {
        Ok(()) | Err(Unread::Table(_)) => Ok(stepfile::table(file)),
        Err(unread) => Err(NoTable::Refused(unread)),
    }
}

fn in_text(text: &[u8]) -> Result<Table, NoTable> {
    tabletext::read(text).map_err(NoTable::Wrong)
}

impl NoTable {
    // Writes a line that says so.
    pub fn say<W: Write + Drop>(self, out: W) -> Result<(), Unwritten> {
        let mut page = Page::blank(out);
        match self {
            NoTable::Unreadable => page.words(b"it can not be read"),
            NoTable::Refused(unread) => refused(&mut page, unread),
            NoTable::TooLong => page.words(b"the text is longer than 65536 bytes"),
            NoTable::Wrong(fault) => wrong(&mut page, fault),
        }
        page.end();
        page.close()
    }
}

fn refused<W: Write>(page: &mut Page<W>, unread: Unread) {
    page.words(b"the step file is refused with ");
    page.figure(unread.number());
    page.words(match unread {
        Unread::TooShort => b": it has fewer than 12 bytes",
        Unread::Header => b": a header field, or too many records",
        Unread::Length => b": its length",
        Unread::Table(_) => b": its table",
    });
}

// What is wrong with a text.
fn wrong<W: Write>(page: &mut Page<W>, fault: Fault) {
    page.words(b"line ");
    page.figure(fault.line);
    page.words(b": ");
    match fault.kind {
        FaultKind::NoName => page.words(b"its first word is no name of an entry"),
        FaultKind::Twice(entry) => named(page, entry, b" stands there a second time"),
        FaultKind::NoNumber(entry) => {
            named(page, entry, b" wants one number behind it, in digits");
        }
        FaultKind::Above(entry) => named(page, entry, b" has a number above 65535"),
        FaultKind::Missing(entry) => missing(page, entry),
    }
}

fn named<W: Write>(page: &mut Page<W>, entry: usize, words: &[u8]) {
    page.words(name(entry));
    page.words(words);
}

fn missing<W: Write>(page: &mut Page<W>, entry: usize) {
    page.words(b"the text ends without ");
    page.words(name(entry));
    if 18 <= entry {
        page.words(b", and has another delay");
    }
}
