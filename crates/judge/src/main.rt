// The program: reads a step file from standard input and prints the line of its verdict.
#![tactic(auto)]

use std::process::ExitCode;

fn main(rt: HostRuntime) -> ExitCode {
    // One byte longer than the longest good file. No program allocates: each has room for the longest input.
    let mut file = [0u8; 65537];
    let written = match input::read_all(&mut rt.stdin(), &mut file) {
        Ok(count) => output::line(&mut rt.stdout(), &file[..count]),
        Err(_) => output::write(
            &mut rt.stderr(),
            b"judge: standard input could not be read\n",
        ),
    };
    output::status(written)
}
