// The program `admit_file`: writes a step file with the limit table that standard input gives, and with no records; nothing where the
// table is not admitted.
#![tactic(auto)]

use limits::Table;
use output::Unwritten;
use std::io::{Stderr, Stdout};
use std::process::ExitCode;

fn main(rt: HostRuntime) -> ExitCode {
    let written = match desk::read(&mut rt.stdin()) {
        Ok(table) => write(rt.stdout(), rt.stderr(), table),
        Err(why) => why.say(rt.stdout()),
    };
    output::status(written)
}

// Writes the step file of a table, nothing where it is not admitted, and answers how the last writing ended.
fn write(mut out: Stdout, mut err: Stderr, table: Table) -> Result<(), Unwritten> {
    // A header of 12 bytes, and 2 for each of 22 entries. Nothing is allocated.
    let mut file = [0u8; 56];
    let length = stepfile::write::write(Some(table), &[], &[], &mut file).unwrap_or(0);
    let written = output::write(&mut out, &file[..length]);
    output::tell(
        &mut err,
        written,
        b"admit_file: the file could not be written\n",
    )
}
