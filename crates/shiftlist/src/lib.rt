// The list of a step file's shifts: built beside the file, and fetched from without it.
#![tactic(auto)]

ghost use Rattle.std.specs.Prelude.{◌≡◌, length};
ghost use Rattle.shiftlist.specs.Lists.{listed_long, refused_by, built_of, buffer_after, shift_at, fetch_of};
ghost use Rattle.shiftlist.specs.Fetching.{handed};

use numbers::{byte_at, u16_at, u32_at};
use walk::Walk;

pub mod lay;
pub mod walk;

// One shift: its first and last record, its kind (the request's code), 1 where a clutch was asked for, how it ended (0 open, 1 done,
// 2 error), the clock at its request and its age at the last record. munasirel_fetch hands it to C, with document 02's numbers.
#[repr(C)]
#[derive(Clone, Copy, Default)]
pub struct Shift {
    pub first: u16,
    pub last: u16,
    pub kind: u8,
    pub route: u8,
    pub end: u8,
    pub request_time: u32,
    pub age: u32,
}

// The list's length with number 0; or the number that refuses it, with the judge's own its rule, index and excess. munasirel_list and
// munasirel_extend hand it to C, with document 01's numbers.
#[repr(C)]
#[derive(Clone, Copy)]
pub struct Listed {
    pub number: u8,
    pub rule: u8,
    pub index: usize,
    pub excess: u64,
    pub length: usize,
}

impl Listed {
    // A list of this length.
    pub fn long(length: usize) -> Listed
        ensures { result ≡ listed_long length }
    {
        Listed {
            number: 0,
            rule: 0,
            index: 0,
            excess: 0,
            length,
        }
    }

    // No list: the number that refuses it, and with the judge's own its rule, index and excess.
    pub fn refused(number: u8, rule: u8, index: usize, excess: u64) -> Listed
        ensures { result ≡ refused_by number rule index excess }
    {
        Listed {
            number,
            rule,
            index,
            excess,
            length: 0,
        }
    }
}

// Number 0 and the entry; or the number that refuses it, and an entry of zeros. munasirel_fetch hands it to C.
#[repr(C)]
#[derive(Clone, Copy)]
pub struct Fetched {
    pub number: u8,
    pub shift: Shift,
}

// The list of a file's shifts at the start of `out`, or no byte changed: the judge's own refusals, then 15.
pub fn build(file: &[u8], out: &mut [u8]) -> Listed
    ensures value { result ≡ built_of file.now (length out.old) }
    ensures out_after { out.new ≡ buffer_after file.now out.old }
{
    // A verdict has its number for C: munasirel_verdict hands it over.
    let verdict = verdict::judge(file);
    let number = verdict.number;
    if number != 0 {
        return Listed::refused(number, verdict.rule, verdict.index, verdict.excess);
    }
    // No shift in hand, at the start.
    let walk = Walk::default();
    let Some(size) = lay::lay(out, 8, walk, 0, stepfile::from_offset(file)) else {
        return Listed::refused(15, 0, 0, 0);
    };
    Listed::long(size)
}

// The entry of a list with this number: 1 for a list under 8 bytes, 2 for its offset, 3 for its length, 14 at or past its count.
pub fn fetch(list: &[u8], number: usize) -> Fetched
    ensures { result ≡ fetch_of list.now number }
{
    match entry(list, number) {
        Ok(shift) => Fetched { number: 0, shift },
        Err(why) => Fetched {
            number: why as u8,
            shift: Shift::default(),
        },
    }
}

// Why a list has no entry of a number. The numbers are document 02's, of what munasirel_fetch hands to C.
#[derive(Clone, Copy, Debug, PartialEq, Eq)]
enum NoEntry {
    Short = 1,
    Offset = 2,
    Length = 3,
    Count = 14,
}

fn entry(list: &[u8], number: usize) -> Result<Shift, NoEntry>
    ensures { handed result ≡ fetch_of list.now number }
{
    let len = list.len();
    if len < 8 {
        return Err(NoEntry::Short);
    }
    if u32_at(list, 4) != 8 {
        return Err(NoEntry::Offset);
    }
    let count = u32_at(list, 0) as usize;
    if len != 8 + 16 * count {
        return Err(NoEntry::Length);
    }
    if count <= number {
        return Err(NoEntry::Count);
    }
    Ok(shift_at(list, 8 + 16 * number))
}

// The entry at a place; behind the end zeros are read.
pub fn shift_at(list: &[u8], at: usize) -> Shift
    ensures { result ≡ shift_at list.now at }
{
    if list.len() <= at {
        return Shift::default();
    }
    Shift {
        first: u16_at(list, at),
        last: u16_at(list, at + 2),
        kind: byte_at(list, at + 4),
        route: byte_at(list, at + 5),
        end: byte_at(list, at + 6),
        request_time: u32_at(list, at + 8),
        age: u32_at(list, at + 12),
    }
}
