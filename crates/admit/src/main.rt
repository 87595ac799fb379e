// The program `admit`: prints whether the limit table that standard input gives is admitted, and else each way in which it breaks a
// rule; then what the routes leave of ChangeDL.
#![tactic(auto)]

use columns::Page;
use limits::Table;
use output::Unwritten;
use rules::Report;
use std::io::{Stdout, Write};
use std::process::ExitCode;

mod rules;

// The widths of the columns, in which every entry fits.
const ROUTE: u8 = 5;

const KIND: u8 = 12;

const SUM: u8 = 7;

const LEFT: u8 = 20;

fn main(rt: HostRuntime) -> ExitCode {
    let written = match desk::read(&mut rt.stdin()) {
        Ok(table) => output::tell(
            &mut rt.stderr(),
            report(rt.stdout(), table),
            b"admit: the report could not be written\n",
        ),
        Err(why) => why.say(rt.stdout()),
    };
    output::status(written)
}

// Prints the report of a table, and answers how writing it ended.
fn report(out: Stdout, table: Table) -> Result<(), Unwritten> {
    let mut page = Page::blank(out);
    if table.admit().is_ok() {
        page.words(b"admitted");
        page.end();
    } else {
        Report::of(&mut page, table).broken();
    }
    routes(&mut page, table);
    page.close()
}

fn routes<W: Write>(page: &mut Page<W>, table: Table) {
    let sums = admission::sums(table);
    let change = table.change_dl;
    head(page);
    route(page, b"F", b"from neutral", sums.f, change);
    route(page, b"N", b"to neutral", sums.n, change);
    route(page, b"G1", b"gear to gear", sums.g1, change);
    route(page, b"G2", b"gear to gear", sums.g2, change);
}

fn head<W: Write>(page: &mut Page<W>) {
    page.left(b"route", ROUTE);
    page.left(b"kind", KIND);
    page.right(b"sum, ms", SUM);
    page.right(b"left of ChangeDL, ms", LEFT);
    page.end();
}

fn route<W: Write>(page: &mut Page<W>, name: &[u8], kind: &[u8], sum: u32, change: u16) {
    page.left(name, ROUTE);
    page.left(kind, KIND);
    page.number(sum, SUM);
    page.number(i64::from(change) - i64::from(sum), LEFT);
    page.end();
}
