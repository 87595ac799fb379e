// What a case of a limit table is answered by: the line behind its word, of a table's text, of two tables, and of a table's rules.
#![tactic(auto)]

use admission::RouteSums;
use limits::Table;
use printing::Line;
use std::array;
use std::io::Write;
use tabletext::{Fault, FaultKind};

// What a text says.
pub fn text(writer: &mut impl Write, text: &[u8]) {
    let mut line = Line::to(writer);
    match tabletext::read(text) {
        Ok(table) => {
            print_place(&mut line, 0, 0, 0);
            line.table(table);
        }
        Err(fault) => print_fault(&mut line, fault),
    }
}

// The numbers are those of the stored cases, which number_in and entry_of of tabletext/specs/Answers.antt define.
fn print_fault(line: &mut Line<impl Write>, fault: Fault) {
    match fault.kind {
        FaultKind::NoName => print_place(line, 1, fault.line, 0),
        FaultKind::Twice(entry) => print_place(line, 2, fault.line, entry),
        FaultKind::NoNumber(entry) => print_place(line, 3, fault.line, entry),
        FaultKind::Above(entry) => print_place(line, 4, fault.line, entry),
        FaultKind::Missing(entry) => print_place(line, 5, fault.line, entry),
    }
}

fn print_place(line: &mut Line<impl Write>, kind: u8, at: usize, entry: usize) {
    line.number(kind);
    line.number(at);
    line.number(entry);
}

// Where a new table is tighter than an old one.
pub fn tighter(writer: &mut impl Write, old: Table, new: Table) {
    let mut line = Line::to(writer);
    line.number(admission::first_tighter(old, new));
    line.flags::<22>(&array::from_fn(|entry| admission::is_tighter(old, new, entry)));
}

// A table as text.
pub fn print(writer: &mut impl Write, table: Table) {
    let mut line = Line::to(writer);
    // No text of a table is longer; nothing is allocated for it.
    let mut text = [0u8; 1024];
    let end = tabletext::lay::lay(table, &mut text).unwrap_or(0);
    line.bytes(&text[..end]);
}

// The rules that a table breaks, and its route sums.
pub fn rules(writer: &mut impl Write, table: Table) {
    let mut line = Line::to(writer);
    line.flags::<16>(&array::from_fn(|i| admission::is_broken(table, i as u8 + 1)));
    let RouteSums { f, n, g1, g2 } = admission::sums(table);
    for sum in [f, n, g1, g2] {
        line.number(sum);
    }
}
