// A table laid as text.
ghost use Rattle.std.specs.Prelude.{◌≡◌, ◌++◌, ◌+◌, ◌≤◌};
ghost use Rattle.arrayvec.specs.ArrayVec.{array_vec_len};
ghost use Rattle.io.specs.Counts.{IsPrefixLen};
ghost use Rattle.line.specs.Laying.{laid_in, laid, after};
ghost use Rattle.tablewords.specs.Names.{name};
ghost use Rattle.tabletext.specs.Printed.{entry_line, text_of};

use arrayvec::ArrayVec;
use itoa::Buffer;
use limits::Table;
use line::NoRoom;
use stepfile::write::entries_for;
use tablewords::names::name;

// Lays the text of a table at the start of out and leaves the bytes after it, or leaves every byte where it does not fit.
pub fn lay(table: Table, out: &mut [u8]) -> Result<usize, NoRoom>
    ensures prefix_len { IsPrefixLen (laid_in result).length out.new }
    ensures value { laid_in result ≡ laid (text_of table) out.old }
    ensures out_after { out.new ≡ after (text_of table) out.old }
{
    // No byte of a buffer that is too small may change (`after`), and nothing is allocated: so the text has a space of its own first.
    line::place(spelled(table).as_slice(), out)
}

// The text of a table: at most 22 lines of 43 bytes.
fn spelled(table: Table) -> ArrayVec<u8, 946>
    ensures { result.items ≡ text_of table }
{
    let entries = table.entries();
    let mut text = ArrayVec::new();
    for (entry, value) in entries[..entries_for(table)].iter().enumerate() {
        append_entry(&mut text, entry, *value);
    }
    text
}

// The line of an entry behind a text: a name, of at most 21 bytes, a space, a value, of at most 20 digits, and a line feed.
fn append_entry(text: &mut ArrayVec<u8, 946>, entry: usize, value: u16)
    requires { array_vec_len text.old + 43 ≤ 946 }
    ensures text_after { text.new.items ≡ text.old.items ++ entry_line entry value }
    ensures upper_bound { array_vec_len text.new ≤ array_vec_len text.old + 43 }
{
    text.try_extend_from_slice(name(entry)).unwrap();
    text.try_extend_from_slice(b" ").unwrap();
    text.try_extend_from_slice(Buffer::new().format(value).as_bytes())
        .unwrap();
    text.try_extend_from_slice(b"\n").unwrap();
}
