// A limit table as text: what any text says, and a table laid as text into a lent buffer.
#![tactic(auto)]

ghost use Rattle.std.specs.Prelude.{◌≡◌, map, IsTrue, OnOk, IfErr};
ghost use Rattle.limits.specs.Limits.{table_of};
ghost use Rattle.tablewords.specs.Words.{as_number};
ghost use Rattle.tablewords.specs.Names.{an_entry};
ghost use Rattle.tabletext.specs.Answers.{number_in, entry_of, text_in, values_in, all_fit};
ghost use Rattle.tabletext.specs.Texts.{number_behind, line_of, fault_of, entry_in, with_line, wanted, missing, or_zero, read_of};

use limits::Table;
use tablewords::names::entry_named;
use tablewords::{NoNumber, first_word, number_of};

pub mod lay;

// What is wrong first: the line, from 1 on, and what is wrong there. A name that is missing is told with the last line.
#[derive(Clone, Copy, Debug, PartialEq, Eq)]
pub struct Fault {
    pub line: usize,
    pub kind: FaultKind,
}

// A first word that is no name, or an entry whose name stands there twice, has no number behind it or one above 65,535, or is missing.
#[derive(Clone, Copy, Debug, PartialEq, Eq)]
pub enum FaultKind {
    NoName,
    Twice(usize),
    NoNumber(usize),
    Above(usize),
    Missing(usize),
}

// What a text says: a table, or what is wrong first.
pub fn read(text: &[u8]) -> Result<Table, Fault>
    ensures { text_in result ≡ read_of text.now }
{
    let mut entries = Entries { given: [None; 22] };
    // Counted and not enumerated: behind the loop the count is the last line, with which a missing name is told.
    let mut lines: usize = 0;
    for line in text.split(|byte| *byte == b'\n') {
        lines += 1;
        entries
            .take(line)
            .map_err(|kind| Fault { line: lines, kind })?;
    }
    match entries.missing() {
        Some(entry) => Err(Fault {
            line: lines,
            kind: FaultKind::Missing(entry),
        }),
        None => Ok(entries.table()),
    }
}

// The entries, by number, as far as lines have given them. That each has 16 bits its type says, and the ghost field says it to proofs.
#[derive(Clone, Copy)]
struct Entries {
    given: [Option<u16>; 22],
    ghost fit: { IsTrue (all_fit given) },
}

impl Entries {
    // Takes the entry that a line says, or answers what is wrong with it.
    fn take(&mut self, line: &[u8]) -> Result<(), FaultKind>
        ensures ok { OnOk result (fault_of (values_in self.old.given) (line_of line.now) ≡ 0) }
        ensures given_after { OnOk result (values_in self.new.given ≡ with_line (values_in self.old.given) (line_of line.now)) }
        ensures number { IfErr result (λ kind. number_in kind ≡ fault_of (values_in self.old.given) (line_of line.now)) }
        ensures entry { IfErr result (λ kind. entry_of kind ≡ entry_in (line_of line.now)) }
    {
        let (name, rest) = first_word(line);
        if name.is_empty() {
            return Ok(());
        }
        let Some(entry) = entry_named(name) else {
            return Err(FaultKind::NoName);
        };
        if self.given[entry].is_some() {
            return Err(FaultKind::Twice(entry));
        }
        match number_behind(rest) {
            Ok(number) => self.given[entry] = Some(number),
            Err(NoNumber::NotDigits) => return Err(FaultKind::NoNumber(entry)),
            Err(NoNumber::Above) => return Err(FaultKind::Above(entry)),
        }
        Ok(())
    }

    // The first one that is missing.
    fn missing(&self) -> Option<usize>
        ensures { result ≡ an_entry (missing (values_in self.now.given)) }
    {
        let wanted = self.wanted();
        self.given[..wanted]
            .iter()
            .position(|value| value.is_none())
    }

    // How many a table has of which these are given: eighteen without delays.
    fn wanted(&self) -> usize
        ensures { result ≡ wanted (values_in self.now.given) }
    {
        if self.given[18..].iter().all(|value| value.is_none()) {
            18
        } else {
            22
        }
    }

    // The table of those that are given, with 0 for the others.
    fn table(&self) -> Table
        ensures { result ≡ table_of (map or_zero (values_in self.now.given)) }
    {
        Table::of(self.given.map(|value| value.unwrap_or(0)))
    }
}

// The number behind a name: of its one word.
fn number_behind(line: &[u8]) -> Result<u16, NoNumber>
    ensures { result ≡ as_number (number_behind line.now) }
{
    let (number, rest) = first_word(line);
    let (further, _) = first_word(rest);
    if !further.is_empty() {
        return Err(NoNumber::NotDigits);
    }
    number_of(number)
}
