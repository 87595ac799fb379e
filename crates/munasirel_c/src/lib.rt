// The archive that a host in C links: each function of `munasirel`, exported under its name with its contract. The two are written out side
// by side: an exported name is one function of a static crate, and the proved ones stand in a library (docs/DECISIONS.md).
#![tactic(auto)]

ghost use Rattle.std.specs.Prelude.{◌≡◌, length};
ghost use Rattle.limits.specs.Limits.{old_default, new_default, house};
ghost use Rattle.limits.specs.Rules.{broken_rule};
ghost use Rattle.admission.specs.FirstTighter.{first_tighter};
ghost use Rattle.stepfile.specs.Files.{table_in};
ghost use Rattle.line.specs.Laying.{laid, after};
ghost use Rattle.transfer.specs.Join.{joined, buffer_after};
ghost use Rattle.verdict.specs.Verdicts.{verdict_of};
ghost use Rattle.verdict.specs.Said.{line_for};
ghost use Rattle.gateway.specs.Advancing.{advanced_on, block_on};
ghost use Rattle.shiftlist.specs.Lists as listed;
ghost use Rattle.shiftlist.specs.Lists.{built_of, fetch_of};
ghost use Rattle.shiftlist_extend.specs.Extending.{extended_of, list_after};
ghost use Rattle.munasirel.specs.Calls.{written_for, out_after};

use limits::Table;
use shift::State;
use shiftlist::{Fetched, Listed};
use verdict::Verdict;

// The number of the verdict on a file.
#[unsafe(no_mangle)]
pub extern "C" fn munasirel_judge(file: &[u8]) -> u8
    ensures { result ≡ (verdict_of file.now).number }
{
    munasirel::munasirel_judge(file)
}

// The whole verdict on a file.
#[unsafe(no_mangle)]
pub extern "C" fn munasirel_verdict(file: &[u8]) -> Verdict
    ensures { result ≡ verdict_of file.now }
{
    munasirel::munasirel_verdict(file)
}

// The first rule that a table breaks, 0 for an admitted one.
#[unsafe(no_mangle)]
pub extern "C" fn munasirel_admit(table: Table) -> u8
    ensures { result ≡ broken_rule table }
{
    munasirel::munasirel_admit(table)
}

// The number of the first entry that is tighter in the new table than in the old one, 22 where none is.
#[unsafe(no_mangle)]
pub extern "C" fn munasirel_tighter(old: Table, new: Table) -> u8
    ensures { result ≡ first_tighter old new }
{
    munasirel::munasirel_tighter(old, new)
}

// The old default, under which a file without a table is judged for ever.
#[unsafe(no_mangle)]
pub extern "C" fn munasirel_old_default() -> Table
    ensures { result ≡ old_default }
{
    munasirel::munasirel_old_default()
}

// The new default, which is handed out now.
#[unsafe(no_mangle)]
pub extern "C" fn munasirel_new_default() -> Table
    ensures { result ≡ new_default }
{
    munasirel::munasirel_new_default()
}

// The house's table, for the clutch unit that cannot answer at once.
#[unsafe(no_mangle)]
pub extern "C" fn munasirel_house() -> Table
    ensures { result ≡ house }
{
    munasirel::munasirel_house()
}

// The table of a file; of one that has none, the old default.
#[unsafe(no_mangle)]
pub extern "C" fn munasirel_table(file: &[u8]) -> Table
    ensures { result ≡ table_in file.now }
{
    munasirel::munasirel_table(file)
}

// Lays the line of a file's verdict into `out`: 0 and its length, or 15 and 0.
#[unsafe(no_mangle)]
pub extern "C" fn munasirel_line(file: &[u8], out: &mut [u8], length: &mut usize) -> u8
    ensures { (result ≡ (laid (line_for file.now) out.old).number) × (length.new ≡ (laid (line_for file.now) out.old).length) × (out.new ≡ after (line_for file.now) out.old) }
{
    munasirel::munasirel_line(file, out, length)
}

// Joins a part to the bytes held, and counts anew how many are.
#[unsafe(no_mangle)]
pub extern "C" fn munasirel_join(
    buffer: &mut [u8],
    held: &mut usize,
    offset: usize,
    part: &[u8],
) -> u8
    ensures { (result ≡ (joined buffer.old held.old offset part.now).number) × (held.new ≡ (joined buffer.old held.old offset part.now).held) × (buffer.new ≡ buffer_after buffer.old held.old offset part.now) }
{
    munasirel::munasirel_join(buffer, held, offset, part)
}

// Writes a step file into `out`, of two lists of one length, with the table or, where `with_table` is 0, with the new default.
#[unsafe(no_mangle)]
pub extern "C" fn munasirel_write(
    table: Table,
    with_table: u8,
    codes: &[u8],
    amounts: &[u32],
    out: &mut [u8],
    length: &mut usize,
    index: &mut usize,
    rule: &mut u8,
) -> u8
    ensures { (result ≡ (written_for with_table table codes.now amounts.now out.old).number) × (length.new ≡ (written_for with_table table codes.now amounts.now out.old).length) × (index.new ≡ (written_for with_table table codes.now amounts.now out.old).index) × (rule.new ≡ (written_for with_table table codes.now amounts.now out.old).rule) × (out.new ≡ out_after with_table table codes.now amounts.now out.old) }
{
    munasirel::munasirel_write(table, with_table, codes, amounts, out, length, index, rule)
}

// The list of a file's shifts at the start of `out`, or no byte changed.
#[unsafe(no_mangle)]
pub extern "C" fn munasirel_list(file: &[u8], out: &mut [u8]) -> Listed
    ensures value { result ≡ built_of file.now (length out.old) }
    ensures out_after { out.new ≡ listed.buffer_after file.now out.old }
{
    munasirel::munasirel_list(file, out)
}

// The entry of a list with this number.
#[unsafe(no_mangle)]
pub extern "C" fn munasirel_fetch(list: &[u8], number: usize) -> Fetched
    ensures { result ≡ fetch_of list.now number }
{
    munasirel::munasirel_fetch(list, number)
}

// Extends the list that the first `held` bytes hold by the records that follow those of its file, or changes no byte.
#[unsafe(no_mangle)]
pub extern "C" fn munasirel_extend(
    list: &mut [u8],
    held: usize,
    state: State,
    count: u32,
    table: Table,
    records: &[u8],
) -> Listed
    ensures value { result ≡ extended_of list.old held state count table records.now }
    ensures list_after { list.new ≡ list_after list.old held state count table records.now }
{
    munasirel::munasirel_extend(list, held, state, count, table, records)
}

// One record's four bytes on the lent state, which is as it was where they are refused; `excess` says how far over they are.
#[unsafe(no_mangle)]
pub extern "C" fn munasirel_advance(
    state: &mut State,
    table: Table,
    code: u8,
    middle: u8,
    low: u8,
    high: u8,
    excess: &mut u64,
) -> u8
    ensures { (result ≡ (advanced_on table state.old code middle low high).number) × (state.new ≡ (advanced_on table state.old code middle low high).state) × (excess.new ≡ (advanced_on table state.old code middle low high).excess) }
{
    munasirel::munasirel_advance(state, table, code, middle, low, high, excess)
}

// The records of a block, one by one on the lent state, which is advanced by those accepted; `accepted` counts them, and `excess` says
// how far over the refused one is.
#[unsafe(no_mangle)]
pub extern "C" fn munasirel_advance_block(
    state: &mut State,
    table: Table,
    records: &[u8],
    accepted: &mut usize,
    excess: &mut u64,
) -> u8
    ensures { (result ≡ (block_on table state.old records.now).number) × (state.new ≡ (block_on table state.old records.now).state) × (accepted.new ≡ (block_on table state.old records.now).index) × (excess.new ≡ (block_on table state.old records.now).excess) }
{
    munasirel::munasirel_advance_block(state, table, records, accepted, excess)
}
