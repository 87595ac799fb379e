// The program `admit_text`: prints the limit table that standard input gives as text.
#![tactic(auto)]

use limits::Table;
use output::Unwritten;
use std::io::{Stderr, Stdout};
use std::process::ExitCode;

fn main(rt: HostRuntime) -> ExitCode {
    let written = match desk::read(&mut rt.stdin()) {
        Ok(table) => print(rt.stdout(), rt.stderr(), table),
        Err(why) => why.say(rt.stdout()),
    };
    output::status(written)
}

// Prints the text of a table, and answers how the last writing ended.
fn print(mut out: Stdout, mut err: Stderr, table: Table) -> Result<(), Unwritten> {
    // As long as the longest text of a table, and longer. Nothing is allocated.
    let mut text = [0u8; 1024];
    let end = tabletext::lay::lay(table, &mut text).unwrap_or(0);
    let written = output::write(&mut out, &text[..end]);
    output::tell(
        &mut err,
        written,
        b"admit_text: the text could not be written\n",
    )
}
