// Writing what is said of a step file, and how writing ended.
//
// The programs begin alike, by a match on what they read. A function that took the rest of a program as a closure would have to ask that
// it may be called, and no public function asks for anything (CONTRIBUTING.md, "Total and exact").
#![tactic(auto)]

ghost use Rattle.std.specs.Prelude.{◌≡◌, ◌≢◌, ◌↔◌, ◌≤◌, length, Err, IsOk, IsErrOf, IfErr, OnOk};
ghost use Rattle.std.specs.Io.KnownBytes.{Appends};
ghost use Rattle.std.specs.declared.io.ErrorKind.TheVariants.{BrokenPipe};
ghost use Rattle.std.specs.IoError.{error_kind};
ghost use Rattle.std.specs.Process.{exit_status};
ghost use Rattle.verdict.specs.Said.{line_for};
ghost use Rattle.output.specs.declared.Unwritten.TheVariants.{Part, NobodyReads};

use std::io;
use std::io::{ErrorKind, Write};
use std::process::ExitCode;

// The status of a program that the system ends because nobody reads on.
const NOBODY_READS: u8 = 141;

// Why not the whole was written: a part could not be, or nobody reads on.
#[derive(Clone, Copy, Debug, PartialEq, Eq)]
pub enum Unwritten {
    Part,
    NobodyReads,
}

impl From<io::Error> for Unwritten {
    ghost from_gives = { λ error unwritten. (error_kind error ≡ BrokenPipe) ↔ (unwritten ≡ NobodyReads) };

    fn from(error: io::Error) -> Unwritten {
        if error.kind() == ErrorKind::BrokenPipe {
            Unwritten::NobodyReads
        } else {
            Unwritten::Part
        }
    }
}

// The status that a program ends with behind what it wrote.
pub fn status(written: Result<(), Unwritten>) -> ExitCode
    ensures unread { IsErrOf written NobodyReads → exit_status result ≡ 141 }
    ensures others { written ≢ Err NobodyReads → exit_status result ≡ 0 }
{
    match written {
        Err(Unwritten::NobodyReads) => ExitCode::from(NOBODY_READS),
        _ => ExitCode::SUCCESS,
    }
}

// How writing ended.
pub fn ended(written: io::Result<()>) -> Result<(), Unwritten>
    ensures whole { IsOk written ↔ IsOk result }
    ensures unread { IfErr written (λ e. (error_kind e ≡ BrokenPipe) ↔ IsErrOf result NobodyReads) }
{
    Ok(written?)
}

// Writes these bytes.
pub fn write<W: Write>(writer: &mut W, bytes: &[u8]) -> Result<(), Unwritten>
    ensures { OnOk result (Appends (W.contents writer.old) (W.contents writer.new) bytes.now) }
{
    ended(writer.write_all(bytes))
}

// Writes the line of its verdict.
pub fn line<W: Write>(writer: &mut W, file: &[u8]) -> Result<(), Unwritten>
    ensures { length (line_for file.now) ≤ 128 → OnOk result (Appends (W.contents writer.old) (W.contents writer.new) (line_for file.now)) }
{
    // No line is longer; nothing is allocated for it.
    let mut text = [0u8; 128];
    let end = verdict::line(file, &mut text).unwrap_or(0);
    write(writer, &text[..end])
}

// Tells by this sentence that a part could not be written. Where nobody reads on there is nobody to tell.
pub fn tell<W: Write>(
    writer: &mut W,
    written: Result<(), Unwritten>,
    words: &[u8],
) -> Result<(), Unwritten>
    ensures part { IsErrOf written Part → OnOk result (Appends (W.contents writer.old) (W.contents writer.new) words.now) }
    ensures others { written ≢ Err Part → (result ≡ written) × (writer.new ≡ writer.old) }
{
    match written {
        Err(Unwritten::Part) => write(writer, words),
        _ => written,
    }
}
