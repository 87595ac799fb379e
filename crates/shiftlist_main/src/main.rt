// The program `shiftlist`: reads a step file from standard input and writes the list of its shifts; of a refused file its line, to
// standard error.
#![tactic(auto)]

use output::Unwritten;
use std::io::{Stderr, Stdout};
use std::process::ExitCode;

fn main(rt: HostRuntime) -> ExitCode {
    // One byte longer than the longest good file. No program allocates: each has room for the longest input.
    let mut file = [0u8; 65537];
    let written = match input::read_all(&mut rt.stdin(), &mut file) {
        Ok(count) => list(rt.stdout(), rt.stderr(), &file[..count]),
        Err(_) => output::write(
            &mut rt.stderr(),
            b"shiftlist: standard input could not be read\n",
        ),
    };
    output::status(written)
}

// Writes the list of a file, or the line of one that is refused, and answers how the last writing ended.
fn list(mut out: Stdout, mut err: Stderr, file: &[u8]) -> Result<(), Unwritten> {
    // As long as the longest list: a header of 8 bytes, and 16 for each of 16,372 records. Nothing is allocated.
    let mut list = [0u8; 261960];
    let listed = shiftlist::build(file, &mut list);
    if listed.number != 0 {
        return output::line(&mut err, file);
    }
    let length = listed.length;
    let written = output::write(&mut out, &list[..length]);
    output::tell(
        &mut err,
        written,
        b"shiftlist: the list could not be written\n",
    )
}
