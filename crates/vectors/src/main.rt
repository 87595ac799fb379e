// The test program: reads cases from standard input and prints the line of each, as docs/CORPUS.md says.
#![tactic(auto)]

mod answers;
mod cases;
mod fields;
mod kinds;

use cases::{NoCase, Spaces};
use output::Unwritten;
use printing::Line;
use std::io::{Read, Write};
use std::process::ExitCode;

fn main(rt: HostRuntime) -> ExitCode {
    let mut line = Line::to(rt.stdout());
    answer_all(&mut rt.stdin(), &mut line);
    output::status(if line.is_closed() {
        Err(Unwritten::NobodyReads)
    } else {
        Ok(())
    })
}

// Case after case until the input ends, no case is there or nobody reads on, or until 2^64 - 1 of them are answered.
fn answer_all(reader: &mut impl Read, line: &mut Line<impl Write>) {
    let mut spaces = Spaces::new();
    for _ in 0..u64::MAX {
        match spaces.read_case(reader) {
            Ok(Some(mut case)) => case.answer(line),
            Ok(None) => break,
            Err(NoCase) => {
                answers::bad(line);
                break;
            }
        }
        if line.is_closed() {
            break;
        }
    }
}
