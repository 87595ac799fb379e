// Writing a step file into a lent buffer.
ghost use Rattle.std.specs.Prelude.{◌≡◌, ℕ, ◌+◌, ◌*◌, ◌≤◌, ◌<◌, length, get_or, take, MatchResult};
ghost use Rattle.std.proofs.lemmas.List.Edits.{sets};
ghost use Rattle.limits.specs.Limits.{entries};
ghost use Rattle.numbers.specs.Bytes.{bytes_of};
ghost use Rattle.stepfile.specs.Writing.{wished, entries_for, most_for, header_of, records_of, file_of, size_of, first_wrong, Names, written_as, written_of, buffer_after};

use crate::most_records;
use limits::{Rule, Table};
use numbers::put;
use shift::{Misread, Step};

// Why no file is written: refusals 2 to 6 and 15.
#[derive(Clone, Copy, PartialEq, Eq)]
pub enum Unwritten {
    // There are more records than a file with this table holds.
    TooMany,
    // The two lists differ in length.
    Uneven,
    // The table, with the first rule that it breaks.
    Table(Rule),
    // The first record that is no step, by its index, and why it is none.
    Record(usize, Misread),
    // The buffer is shorter than the file.
    NoRoom,
}

impl From<Rule> for Unwritten {
    ghost use Rattle.stepfile.specs.declared.write.Unwritten.{Unwritten};

    ghost from_gives = { λ rule unwritten. unwritten ≡ Unwritten.Table rule };

    fn from(rule: Rule) -> Unwritten {
        Unwritten::Table(rule)
    }
}

impl Unwritten {
    // A number of document 01's list: munasirel_write hands it to C.
    pub fn number(self) -> u8
        ensures { result ≡ (written_as (Err self)).number }
    {
        match self {
            Unwritten::TooMany => 2,
            Unwritten::Uneven => 3,
            Unwritten::Table(_) => 4,
            Unwritten::Record(_, misread) => misread as u8,
            Unwritten::NoRoom => 15,
        }
    }

    // The rule's number with 4, else 0.
    pub fn rule(self) -> u8
        ensures { result ≡ (written_as (Err self)).rule }
    {
        match self {
            Unwritten::Table(rule) => rule.number(),
            _ => 0,
        }
    }

    // The record's index with 5 and 6, else 0.
    pub fn index(self) -> usize
        ensures { result ≡ (written_as (Err self)).index }
    {
        match self {
            Unwritten::Record(index, _) => index,
            _ => 0,
        }
    }
}

// How many entries a table is written with: eighteen where its four delays are 0, else twenty-two.
pub fn entries_for(table: Table) -> usize
    ensures { result ≡ length (entries_for table) }
{
    if table.is_undelayed() { 18 } else { 22 }
}

// The record maximum of a file with this table, admitted or not, by how it would be written.
pub fn most_for(table: Table) -> usize
    ensures { result ≡ most_for table }
{
    most_records(entries_for(table))
}

// Codes and amounts are two lists, as munasirel_write is lent them, and bound by no type: lists of two lengths are refused with 3.

// Writes the file at the start of `out`, with the table that is given or with the new default, and answers its length, or changes no byte:
// refusals 3, 2, 4, 5 or 6 at the first record with one, 15.
pub fn write(
    table: Option<Table>,
    codes: &[u8],
    amounts: &[u32],
    out: &mut [u8],
) -> Result<usize, Unwritten>
    ensures value { written_as result ≡ written_of (wished table) codes.now amounts.now (length out.old) }
    ensures out_after { out.new ≡ buffer_after (wished table) codes.now amounts.now out.old }
{
    write_with(
        table.unwrap_or_else(Table::new_default),
        codes,
        amounts,
        out,
    )
}

// The same, with the table that is written.
fn write_with(
    table: Table,
    codes: &[u8],
    amounts: &[u32],
    out: &mut [u8],
) -> Result<usize, Unwritten>
    ensures value { written_as result ≡ written_of table codes.now amounts.now (length out.old) }
    ensures out_after { out.new ≡ buffer_after table codes.now amounts.now out.old }
{
    let count = codes.len();
    if count != amounts.len() {
        return Err(Unwritten::Uneven);
    }
    let entries = entries_for(table);
    if most_records(entries) < count {
        return Err(Unwritten::TooMany);
    }
    table.admit()?;
    all_read(codes, amounts)?;
    let size = 12 + 2 * entries + 4 * count;
    if out.len() < size {
        return Err(Unwritten::NoRoom);
    }
    put_file(out, table, codes, amounts);
    Ok(size)
}

// Whether each record is a step, up to the end of the shorter list; else the first that is none.
fn all_read(codes: &[u8], amounts: &[u32]) -> Result<(), Unwritten>
    ensures { MatchResult result (λ done. first_wrong 0 codes.now amounts.now ≡ record { number = 0; index = 0 }) (λ e. Names e (first_wrong 0 codes.now amounts.now)) }
{
    for (index, (&code, &amount)) in codes.iter().zip(amounts).enumerate() {
        if let Err(misread) = Step::of(code, 0, amount) {
            return Err(Unwritten::Record(index, misread));
        }
    }
    Ok(())
}

// The whole file at the start of a buffer that has room for it; all other bytes stay.
fn put_file(out: &mut [u8], table: Table, codes: &[u8], amounts: &[u32])
    requires codes_len { (length codes.now ≡ length amounts.now) × (length codes.now ≤ 16372) }
    requires codes_in_bounds { size_of table codes.now ≤ length out.old }
    requires by_index { (i : ℕ) → get_or amounts.now i 0 < 65536 }
    ensures { out.new ≡ sets out.old 0 (file_of table codes.now amounts.now) }
{
    let entries = entries_for(table);
    put_header(out, entries as u16, codes.len() as u16);
    put_table(out, table, entries);
    put_records(out, 12 + 2 * entries, codes, amounts);
}

// The header of a file with so many entries and records, at the start.
fn put_header(out: &mut [u8], entries: u16, count: u16)
    requires { entries ≤ 22 }
    ensures { out.new ≡ sets out.old 0 (bytes_of (header_of entries count)) }
{
    put(out, 0, 12);
    put(out, 2, entries);
    put(out, 4, 12 + 2 * entries);
    put(out, 6, 0);
    put(out, 8, count);
    put(out, 10, 0);
}

// The first so many entries of a table behind the header.
fn put_table(out: &mut [u8], table: Table, count: usize)
    requires { count ≤ 22 }
    ensures { out.new ≡ sets out.old 12 (bytes_of (take count (entries table))) }
{
    for (i, &entry) in table.entries()[..count].iter().enumerate() {
        put(out, 12 + 2 * i, entry);
    }
}

// The records of two lists of one length, from a place on.
fn put_records(out: &mut [u8], at: usize, codes: &[u8], amounts: &[u32])
    requires codes_len { (length codes.now ≡ length amounts.now) × (at + 4 * length codes.now ≤ length out.old) }
    requires by_index { (i : ℕ) → get_or amounts.now i 0 < 65536 }
    ensures { out.new ≡ sets out.old at (bytes_of (records_of codes.now amounts.now)) }
{
    for (i, (&code, &amount)) in codes.iter().zip(amounts).enumerate() {
        put(out, at + 4 * i, code as u16);
        put(out, at + 4 * i + 2, amount as u16);
    }
}
