// A line of the test program, part by part.
#![tactic(auto)]

ghost use Rattle.std.specs.Prelude.{◌≡◌, false};

use limits::Table;
use shift::State;
use std::fmt::Display;
use std::io;
use std::io::{ErrorKind, Write};

// A writer of lines, and whether it found that nobody reads them any more. What the writer does not take of a line is left out, part
// by part: so a record is printed number by number, and not by a Display of its own, behind whose first part that fails none is tried.
#[derive(Drop)]
pub struct Line<W> {
    writer: W,
    closed: bool,
}

impl<W> Line<W> {
    pub fn to(writer: W) -> Line<W>
        ensures { result ≡ record { writer = writer; closed = false } }
    {
        Line {
            writer,
            closed: false,
        }
    }

    // A write found that nobody reads.
    pub fn is_closed(&self) -> bool
        ensures { result ≡ self.now.closed }
    {
        self.closed
    }

    // Notes where a write found that nobody reads.
    fn note<T>(&mut self, written: &io::Result<T>)
        ensures { self.new.writer ≡ self.old.writer }
    {
        if let Err(error) = written
            && error.kind() == ErrorKind::BrokenPipe
        {
            self.closed = true;
        }
    }
}

impl<W: Write> Write for Line<W> {
    ghost contents = { λ line. W.contents line.writer };

    fn write(&mut self, bytes: &[u8]) -> io::Result<usize> {
        let written = self.writer.write(bytes);
        self.note(&written);
        written
    }

    // By its writer's own, where std's would go through `write` for each part: a line may be the writer of another.
    fn write_all(&mut self, bytes: &[u8]) -> io::Result<()> {
        let written = self.writer.write_all(bytes);
        self.note(&written);
        written
    }

    fn flush(&mut self) -> io::Result<()> {
        self.writer.flush()
    }
}

impl<W: Write> Line<W> {
    // A space and a number in decimal.
    pub fn number(&mut self, n: impl Display + Drop) {
        let _ = write!(self, " {n}");
    }

    // The entries of a table.
    pub fn table(&mut self, table: Table) {
        for entry in table.entries() {
            self.number(entry);
        }
    }

    // The fields of a state.
    pub fn state(&mut self, state: State) {
        self.number(state.clock);
        self.number(state.gear_box);
        self.number(state.phase);
        self.number(state.phase_time);
        self.number(state.stage);
        self.number(state.stage_time);
        self.number(state.request_time);
        self.number(state.failed_phase);
    }

    // Flags, a byte each: 1 where the flag is up, else 0.
    pub fn flags<const N: usize>(&mut self, flags: &[bool; N]) {
        let mut bytes = [0u8; N];
        for (byte, flag) in bytes.iter_mut().zip(flags) {
            *byte = u8::from(*flag);
        }
        self.bytes(&bytes);
    }

    // A space and bytes, two hexadecimal digits each, or `-` for none.
    pub fn bytes(&mut self, bytes: &[u8]) {
        if bytes.is_empty() {
            let _ = self.write_all(b" -");
            return;
        }
        let _ = self.write_all(b" ");
        // The digits of 2048 bytes are written at once; nothing is allocated for them.
        let mut digits = [0u8; 4096];
        for piece in bytes.chunks(2048) {
            let digits = &mut digits[..2 * piece.len()];
            hex::encode_to_slice(piece, digits).unwrap();
            let _ = self.write_all(digits);
        }
    }
}
