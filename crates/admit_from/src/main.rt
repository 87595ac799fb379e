// The program `admit_from`: compares the limit table that standard input gives with an older one, on file descriptor 3, and prints
// where it is tighter.
#![tactic(auto)]

use columns::Page;
use limits::{Table, entry_at};
use output::Unwritten;
use std::io::{Stderr, Stdout, Write};
use std::process::ExitCode;
use std::rt::Files;
use tablewords::names::name;

// The name under which a program finds its own descriptor 3, from which it reads the older table.
const OLD: &str = "/proc/self/fd/3";

// The width of the columns of limits.
const LIMIT: u8 = 5;

fn main(rt: HostRuntime) -> ExitCode {
    let written = match desk::read(&mut rt.stdin()) {
        Ok(table) => from_old(&rt, rt.stdout(), rt.stderr(), table),
        Err(why) => why.say(rt.stdout()),
    };
    output::status(written)
}

// Compares with the older table, where there is one, and answers how the last writing ended.
fn from_old<R: Files>(
    files: &R,
    out: Stdout,
    mut err: Stderr,
    new: Table,
) -> Result<(), Unwritten> {
    match desk::read_file(files, OLD) {
        Ok(old) => output::tell(
            &mut err,
            compare(out, old, new),
            b"admit_from: the comparison could not be written\n",
        ),
        Err(why) => why.say(out),
    }
}

// Old and new are two tables, as `admission` compares them; the page has the writer.
fn compare(mut out: Stdout, old: Table, new: Table) -> Result<(), Unwritten> {
    if old.admit().is_err() {
        return output::write(&mut out, b"the old table is not admitted\n");
    }
    if new.admit().is_err() {
        return output::write(&mut out, b"the new table is not admitted\n");
    }
    // 22 is none: munasirel_tighter hands it to C.
    if admission::first_tighter(old, new) == 22 {
        return output::write(
            &mut out,
            b"nowhere tighter: every list of steps accepted under the old table is accepted under the new one, with the same end\n",
        );
    }
    tighter(out, old, new)
}

// Prints the table of the entries that are tighter, and answers how writing it ended.
fn tighter(out: Stdout, old: Table, new: Table) -> Result<(), Unwritten> {
    let mut page = Page::blank(out);
    head(&mut page);
    for entry in 0..22 {
        if admission::is_tighter(old, new, entry) {
            row(&mut page, entry, old, new);
        }
    }
    page.close()
}

fn head<W: Write>(page: &mut Page<W>) {
    page.words(b"tighter: a step accepted under the old table can be refused under the new one");
    page.end();
    page.left(b"entry", 21);
    page.right(b"old", LIMIT);
    page.right(b"new", LIMIT);
    page.words(b"can refuse");
    page.end();
}

fn row<W: Write>(page: &mut Page<W>, entry: usize, old: Table, new: Table) {
    page.left(name(entry), 21);
    page.number(entry_at(&old.entries(), entry), LIMIT);
    page.number(entry_at(&new.entries(), entry), LIMIT);
    page.words(step(entry));
    page.words(b" in phases ");
    page.words(phases(entry));
    page.end();
}

// The step that an entry can refuse, and its number.
fn step(entry: usize) -> &'static [u8] {
    match entry {
        0..=6 => b"a tick with 12",
        7 | 8 => b"a take with 10",
        11 | 12 => b"an ask clutch with 9",
        18 | 20 => b"a device good with 9",
        19 | 21 => b"a device failed with 9",
        _ => b"a tick with 11",
    }
}

// The phases in which it can: those of its order.
fn phases(entry: usize) -> &'static [u8] {
    match entry {
        0 => b"1 to 21",
        1 | 7 | 9 | 11 => b"1 and 10",
        2 | 8 | 10 | 12 => b"6 and 17",
        3 | 13 | 18 | 19 => b"2, 7, 11 and 18",
        4 | 16 | 20 | 21 => b"5, 15, 16 and 21",
        5 | 14 => b"3, 4, 12, 13 and 14",
        _ => b"8, 9, 19 and 20",
    }
}
