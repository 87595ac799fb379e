// Step files: bytes to header, table and records, and back.
#![tactic(auto)]

ghost use Rattle.std.specs.Prelude.{◌≡◌, ◌+◌, ◌<◌, ◌≤◌, replicate};
ghost use Rattle.std.proofs.lemmas.List.Edits.{sets};
ghost use Rattle.checks.specs.Checks.{first};
ghost use Rattle.shift.specs.Answers.{refusal};
ghost use Rattle.numbers.specs.Bytes.{u16s_at};
ghost use Rattle.stepfile.specs.Records.{record_of};
ghost use Rattle.stepfile.specs.Files.{most_records, headed, headed_by, table_in, refusal_of, refused_as, from_offset, record_bytes};

use limits::{Rule, Table};
use numbers::{u16_at, u32_at};
use shift::{Reading, Step, refusal_of};

pub mod write;

// Why a file is not read: refusals 1 to 4.
#[derive(Clone, Copy, Debug, PartialEq, Eq)]
pub enum Unread {
    // It has no header.
    TooShort,
    // A field of its header, or too many records.
    Header,
    // It is not as long as its header says.
    Length,
    // Its table, with the first rule that it breaks.
    Table(Rule),
}

impl From<Rule> for Unread {
    ghost use Rattle.stepfile.specs.declared.Unread.{Unread};

    ghost from_gives = { λ rule unread. unread ≡ Unread.Table rule };

    fn from(rule: Rule) -> Unread {
        Unread::Table(rule)
    }
}

impl Unread {
    // A number of document 01's list: `verdict::judge` puts it into the verdict, which C reads.
    pub fn number(self) -> u8
        ensures { result ≡ (refused_as (Err self)).number }
    {
        match self {
            Unread::TooShort => 1,
            Unread::Header => 2,
            Unread::Length => 3,
            Unread::Table(_) => 4,
        }
    }

    // The rule's number with 4, else 0, as the verdict has it.
    pub fn rule(self) -> u8
        ensures { result ≡ (refused_as (Err self)).rule }
    {
        match self {
            Unread::Table(rule) => rule.number(),
            _ => 0,
        }
    }
}

// Whether a file is refused with 1 to 4, in this order.
pub fn refused(file: &[u8]) -> Result<(), Unread>
    ensures { refused_as result ≡ refusal_of file.now }
{
    header(file)?;
    table(file).admit()?;
    Ok(())
}

// Refusal 1, 2 or 3.
fn header(file: &[u8]) -> Result<(), Unread>
    ensures { (refused_as result).number ≡ first (headed file.now) }
{
    let len = file.len();
    if len < 12 {
        return Err(Unread::TooShort);
    }
    fields(
        len,
        u16_at(file, 0) as usize,
        u16_at(file, 2) as usize,
        u32_at(file, 4) as usize,
        u32_at(file, 8) as usize,
    )
}

// The same of a file of 12 bytes or more with these header fields.
fn fields(
    len: usize,
    offset: usize,
    entries: usize,
    from: usize,
    count: usize,
) -> Result<(), Unread>
    requires { (12 ≤ len) × (entries < 65536) × (count < 4294967296) }
    ensures { (refused_as result).number ≡ first (headed_by len offset entries from count) }
{
    if offset != 12 {
        return Err(Unread::Header);
    }
    if (entries != 0) & ((entries != 18) & (entries != 22)) {
        return Err(Unread::Header);
    }
    if from != 12 + 2 * entries {
        return Err(Unread::Header);
    }
    if most_records(entries) < count {
        return Err(Unread::Header);
    }
    if len != 12 + 2 * entries + 4 * count {
        return Err(Unread::Length);
    }
    Ok(())
}

// The record maximum of a file with so many entries.
fn most_records(entries: usize) -> usize
    ensures { result ≡ most_records entries }
{
    if entries == 22 { 16370 } else { 16372 }
}

// The table of any file: the twenty-two entries behind its header, or eighteen and four delays of 0, where the header says so and they
// are there, else the old default.
pub fn table(file: &[u8]) -> Table
    ensures { result ≡ table_in file.now }
{
    let len = file.len();
    let entries = u16_at(file, 2);
    if (entries == 22) & (56 <= len) {
        return Table::of(entries_at(file, 22));
    }
    if (entries == 18) & (48 <= len) {
        return Table::of(entries_at(file, 18));
    }
    Table::old_default()
}

// The first so many entries behind the header, and zeros for the others.
fn entries_at(file: &[u8], count: usize) -> [u16; 22]
    requires { count ≤ 22 }
    ensures { result ≡ sets (replicate 22 0) 0 (u16s_at file.now 12 count) }
{
    let mut entries = [0u16; 22];
    for (i, entry) in entries[..count].iter_mut().enumerate() {
        *entry = u16_at(file, 12 + 2 * i);
    }
    entries
}

// The record bytes of a file, as that part of the lent file; of one that is refused with 1 to 4 an empty part.
pub fn records(file: &[u8]) -> &[u8]
    ensures { result.now ≡ record_bytes file.now }
{
    match refused(file) {
        Ok(()) => from_offset(file),
        Err(_) => &file[..0],
    }
}

// What stands from a file's record offset on, whether it is refused or not; nothing where there is no such place.
pub fn from_offset(file: &[u8]) -> &[u8]
    ensures { result.now ≡ from_offset file.now }
{
    let len = file.len();
    if len < 12 {
        return &file[..0];
    }
    let at = u32_at(file, 4) as usize;
    if len < at {
        return &file[..0];
    }
    &file[at..]
}

// What a record's four bytes mean: a step with its amount, or refusal 5 or 6. They are four numbers, as munasirel_advance is called.
pub fn record(code: u8, middle: u8, low: u8, high: u8) -> Reading
    ensures { result ≡ record_of code middle low high }
{
    Step::of(code, middle, u32::from(u16::from_le_bytes([low, high])))
}

// Refusal 5 or 6 of a record's four bytes, or 0: a number of document 01's list, of which `record_refusal` of proofs/Refusals.antt speaks.
pub fn record_refusal(code: u8, middle: u8, low: u8, high: u8) -> u8
    ensures { result ≡ refusal (record_of code middle low high) }
{
    refusal_of(code, middle, u32::from(u16::from_le_bytes([low, high])))
}
