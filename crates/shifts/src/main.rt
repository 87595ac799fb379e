// The program `shifts`: reads a list of shifts from standard input and prints it as a table.
#![tactic(auto)]

use columns::Page;
use output::Unwritten;
use shiftlist::Shift;
use std::io::{Stderr, Stdout, Write};
use std::process::ExitCode;

// The widths of the columns, in which every entry fits.
const NUMBER: u8 = 5;

const KIND: u8 = 12;

const ROUTE: u8 = 9;

const END: u8 = 5;

const REQUEST_TIME: u8 = 16;

const AGE: u8 = 10;

const FIRST: u8 = 12;

const LAST: u8 = 11;

fn main(rt: HostRuntime) -> ExitCode {
    // One byte longer than the longest list. Nothing is allocated.
    let mut list = [0u8; 261961];
    let written = match input::read_all(&mut rt.stdin(), &mut list) {
        Ok(count) => show(rt.stdout(), rt.stderr(), &list[..count]),
        Err(_) => say(rt.stderr(), b"standard input could not be read"),
    };
    output::status(written)
}

// A sentence on standard error, in three writes of which each is tried, and how the last one ended.
fn say(mut err: Stderr, words: &[u8]) -> Result<(), Unwritten> {
    let _ = output::write(&mut err, b"shifts: ");
    let _ = output::write(&mut err, words);
    output::write(&mut err, b"\n")
}

// The table, or why there is none; 14 is a list without a first shift. It answers how the last writing ended.
fn show(mut out: Stdout, err: Stderr, list: &[u8]) -> Result<(), Unwritten> {
    // The number is document 02's: munasirel_fetch hands it to C.
    let written = match shiftlist::fetch(list, 0).number {
        0 => table(out, list),
        number @ 1..=3 => return say(err, refused(number)),
        _ => output::write(&mut out, b"no shifts\n"),
    };
    match written {
        Err(Unwritten::Part) => say(err, b"the table could not be written"),
        _ => written,
    }
}

// Why a list is refused with 1 to 3.
fn refused(number: u8) -> &'static [u8] {
    match number {
        1 => b"the list is refused with 1: it has fewer than 8 bytes",
        2 => b"the list is refused with 2: the offset of its first entry is not 8",
        _ =>
            b"the list is refused with 3: its length is not 8 bytes and 16 for each shift that it counts",
    }
}

// Prints the table of a list, shift by shift, and answers how writing it ended.
fn table(out: Stdout, list: &[u8]) -> Result<(), Unwritten> {
    let mut page = Page::blank(out);
    head(&mut page);
    // As many as the longest list has.
    for number in 0..16372 {
        let fetched = shiftlist::fetch(list, number);
        if fetched.number != 0 {
            break;
        }
        row(&mut page, number, fetched.shift);
    }
    page.close()
}

fn head<W: Write>(page: &mut Page<W>) {
    page.right(b"shift", NUMBER);
    page.left(b"kind", KIND);
    page.left(b"route", ROUTE);
    page.left(b"end", END);
    page.right(b"request time, ms", REQUEST_TIME);
    page.right(b"age, ms", AGE);
    page.right(b"first record", FIRST);
    page.right(b"last record", LAST);
    page.end();
}

fn row<W: Write>(page: &mut Page<W>, number: usize, shift: Shift) {
    page.number(number, NUMBER);
    coded(page, kind(shift.kind), shift.kind, KIND);
    coded(page, route(shift.route), shift.route, ROUTE);
    coded(page, end(shift.end), shift.end, END);
    page.number(shift.request_time, REQUEST_TIME);
    page.number(shift.age, AGE);
    page.number(shift.first, FIRST);
    page.number(shift.last, LAST);
    page.end();
}

// The word for a number, or the number in decimal where there is none.
fn coded<W: Write>(page: &mut Page<W>, word: Option<&[u8]>, number: u8, width: u8) {
    match word {
        Some(word) => page.left(word, width),
        None => page.left(itoa::Buffer::new().format(number).as_bytes(), width),
    }
}

fn kind(kind: u8) -> Option<&'static [u8]> {
    match kind {
        1 => Some(b"from neutral"),
        2 => Some(b"gear to gear"),
        3 => Some(b"to neutral"),
        _ => None,
    }
}

fn route(route: u8) -> Option<&'static [u8]> {
    match route {
        0 => Some(b"no clutch"),
        1 => Some(b"clutch"),
        _ => None,
    }
}

fn end(end: u8) -> Option<&'static [u8]> {
    match end {
        0 => Some(b"open"),
        1 => Some(b"done"),
        2 => Some(b"error"),
        _ => None,
    }
}
