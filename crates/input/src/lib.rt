// Reading to the end of a reader, in pieces of any size.
#![tactic(auto)]

ghost use Rattle.std.specs.Prelude.{◌<◌, ◌≤◌, take, length, IfOk};
ghost use Rattle.std.specs.Io.KnownBytes.{Consumes, IsAtEnd};
ghost use Rattle.input.specs.Counts.{read_count};

use std::io::Read;

// A read failed; how many bytes were read before it.
#[derive(Clone, Copy, Debug, PartialEq, Eq)]
pub struct ReadFailed {
    pub length: usize,
}

// Reads until the buffer is full, the input ends or a read fails, and answers how many bytes were read. What is said of the bytes
// holds of a reader whose bytes are known.
pub fn read_all<R: Read>(reader: &mut R, buffer: &mut [u8]) -> Result<usize, ReadFailed>
    ensures within { read_count result ≤ length buffer.new }
    ensures bytes { Consumes (R.remaining reader.old) (R.remaining reader.new) (take (read_count result) buffer.new) }
    ensures end { IfOk result (λ count. count < length buffer.new → IsAtEnd (R.remaining reader.new)) }
{
    // It goes on by what a read gives, which no range counts; `read_exact` does not say how many bytes came before the input ended.
    let mut done: usize = 0;
    while done < buffer.len() {
        match reader.read(&mut buffer[done..]) {
            Ok(0) => break,
            Ok(count) => done += count,
            Err(_) => return Err(ReadFailed { length: done }),
        }
    }
    Ok(done)
}
