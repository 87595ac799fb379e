// What stands in a field of a case, with zeros behind its end: numbers of 64 bits, a table, a state and amounts. Each call reads another
// place of a field.
ghost use Rattle.std.specs.Prelude.{◌≡◌, ◌+◌, ◌*◌, ◌^◌, ◌<◌, length};
ghost use Rattle.numbers.specs.Bytes.{u16s_at};
ghost use Rattle.vectors.specs.Fields.{u64_at, u32s_at, table_at, state_in};

use limits::Table;
use numbers::{byte_at, u16_at, u32_at};
use shift::State;
use std::array;

// The number of 64 bits at a place. Not all of its eight bytes need be there, as from_le_bytes would have it.
pub(crate) fn usize_at(bytes: &[u8], at: usize) -> usize
    requires { at + 4 < 2 ^ 64 }
    ensures { result ≡ u64_at bytes.now at }
{
    u32_at(bytes, at) as usize + 4294967296 * (u32_at(bytes, at + 4) as usize)
}

// The table of 44 bytes at a place.
pub(crate) fn table_at(bytes: &[u8], at: usize) -> Table
    requires { at + 44 < 2 ^ 64 }
    ensures { result ≡ table_at bytes.now at }
{
    Table::of(entries_at(bytes, at))
}

fn entries_at<const N: usize>(bytes: &[u8], at: usize) -> [u16; N]
    requires { at + 2 * N < 2 ^ 64 }
    ensures { result ≡ u16s_at bytes.now at N }
{
    array::from_fn(|i| u16_at(bytes, at + 2 * i))
}

// The state behind a table, at place 44.
pub(crate) fn state_in(bytes: &[u8]) -> State
    ensures { result ≡ state_in bytes.now }
{
    State {
        clock: u32_at(bytes, 44),
        gear_box: byte_at(bytes, 48),
        phase: byte_at(bytes, 49),
        phase_time: u32_at(bytes, 50),
        stage: byte_at(bytes, 54),
        stage_time: u32_at(bytes, 55),
        request_time: u32_at(bytes, 59),
        failed_phase: byte_at(bytes, 63),
    }
}

// Reads the amounts of 32 bits from a place on, as many as there is room for.
pub(crate) fn read_amounts(bytes: &[u8], at: usize, amounts: &mut [u32])
    requires { at + 4 * length amounts.old < 2 ^ 64 }
    ensures { amounts.new ≡ u32s_at bytes.now at (length amounts.old) }
{
    for i in 0..amounts.len() {
        amounts[i] = u32_at(bytes, at + 4 * i);
    }
}
