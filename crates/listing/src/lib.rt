// What a case of a list of shifts is answered by: the line behind its word, of a list that is built, fetched from or extended.
#![tactic(auto)]

use limits::Table;
use printing::Line;
use shift::State;
use shiftlist::{Fetched, Listed};
use std::io::Write;

// The list of a file.
pub fn build(writer: &mut impl Write, file: &[u8], out: &mut [u8]) {
    let mut line = Line::to(writer);
    print_listed(&mut line, shiftlist::build(file, out));
    line.bytes(out);
}

fn print_listed(line: &mut Line<impl Write>, listed: Listed) {
    line.number(listed.number);
    line.number(listed.rule);
    line.number(listed.index);
    line.number(listed.excess);
    line.number(listed.length);
}

// The entry of a list with this number.
pub fn fetch(writer: &mut impl Write, list: &[u8], number: usize) {
    let mut line = Line::to(writer);
    let Fetched { number, shift } = shiftlist::fetch(list, number);
    line.number(number);
    line.number(shift.first);
    line.number(shift.last);
    line.number(shift.kind);
    line.number(shift.route);
    line.number(shift.end);
    line.number(shift.request_time);
    line.number(shift.age);
}

// A list that is extended by records, from a state and a count of records under a table.
pub fn extend(
    writer: &mut impl Write,
    list: &mut [u8],
    held: usize,
    state: State,
    count: u32,
    table: Table,
    records: &[u8],
) {
    let mut line = Line::to(writer);
    print_listed(
        &mut line,
        shiftlist_extend::extend(list, held, state, count, table, records),
    );
    line.bytes(list);
}
