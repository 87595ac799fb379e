// Laying the entries of shifts into a list, along the records that make them.
ghost use Rattle.std.specs.Prelude.{◌≡◌, ◌+◌, ◌*◌, ◌≤◌, length, nat_le};
ghost use Rattle.std.proofs.lemmas.List.Edits.{sets};
ghost use Rattle.numbers.specs.Bytes.{bytes_of};
ghost use Rattle.shiftlist.specs.Lists.{numbers_of, entries_of};
ghost use Rattle.shiftlist.specs.Walks.{is_still, in_hand, takes_on, closes, laid_apart, laid_size, laid_in, unless_0};

use crate::Shift;
use crate::walk::Walk;
use numbers::{put, put32};
use phases::{is_unfinished, next_of};

// Lays the entries that records make behind a walk into the list, from a place on, and counts the list anew. The first record has this
// index. Answers the list's size then; or none, and no byte is changed: too many records, a place that no list has, or no room.
pub fn lay(list: &mut [u8], from: usize, walk: Walk, index: u32, records: &[u8]) -> Option<usize>
    ensures value { result ≡ unless_0 (laid_size list.old from walk index records.now) }
    ensures list_after { list.new ≡ laid_in list.old from walk index records.now }
{
    let (records, _) = records.as_chunks::<4>();
    if 16372 < index as usize + records.len() {
        return None;
    }
    if from < 8 || 261960 < from {
        return None;
    }
    let laying = Laying {
        from,
        walk,
        index: index as u16,
        records,
    };
    if !laying.has_room(list.len()) {
        return None;
    }
    let size = laying.lay(list);
    put32(list, 0, ((size - 8) / 16) as u32);
    put32(list, 4, 8);
    Some(size)
}

// The entries that records make behind a walk, from a place on. The first record has this index.
#[derive(Clone, Copy)]
struct Laying<'a> {
    from: usize,
    walk: Walk,
    index: u16,
    records: &'a [[u8; 4]],
    ghost from_bound: { from ≤ 261960 },
    ghost records_bound: { index + length records.now ≤ 16372 },
}

impl Laying<'_> {
    // The list with the entries fits so many bytes. With room for an entry a record nothing has to be counted; else the entries are laid
    // where there is no room for any, which tells how many there are.
    fn has_room(self, len: usize) -> bool
        ensures { result ≡ nat_le (self.entry.from + 16 * length (laid_apart self.entry.walk self.entry.index self.entry.records.now)) len }
    {
        let open = usize::from(is_unfinished(self.walk.phase));
        if self.from + 16 * (open + self.records.len()) <= len {
            return true;
        }
        self.lay(&mut []) <= len
    }

    // The entries alone, and the place behind them; bytes that would stand behind the list's end are left out.
    fn lay(self, list: &mut [u8]) -> usize
        ensures value { result ≡ self.entry.from + 16 * length (laid_apart self.entry.walk self.entry.index self.entry.records.now) }
        ensures list_after { list.new
            ≡ sets list.old self.entry.from (bytes_of (entries_of (laid_apart self.entry.walk self.entry.index self.entry.records.now))) }
    {
        // A code is a number, as in `trace`: who follows accepted records reads no step.
        let mut walk = self.walk;
        let mut end = self.from;
        for (i, &[code, _, low, high]) in self.records.iter().enumerate() {
            walk.last = self.index + i as u16;
            if code == 12 {
                let amount = u16::from_le_bytes([low, high]);
                walk.clock = walk.clock.wrapping_add(u32::from(amount));
            } else if !is_still(code) {
                if takes_on(walk.phase, code) {
                    walk.phase = next_of(walk.phase);
                } else {
                    // No other record ends a shift.
                    let next = walk.after(walk.last, code);
                    if ends(walk.phase, next.phase) {
                        put_entry(list, end, next);
                        end += 16;
                    }
                    walk = next;
                }
            }
        }
        if is_unfinished(walk.phase) {
            put_entry(list, end, walk);
            return end + 16;
        }
        end
    }
}

// One of the four steps that change the stage alone.
fn is_still(code: u8) -> bool
    ensures { result ≡ is_still code }
{
    matches!(code, 4..=7)
}

// A take that goes on with the shift.
fn takes_on(phase: u8, code: u8) -> bool
    ensures { result ≡ takes_on phase code }
{
    code == 8 && next_of(phase) <= 21
}

// A record that leads from the one phase to the other ends a shift.
fn ends(from: u8, to: u8) -> bool
    ensures { result ≡ closes from to }
{
    from <= 21 && 22 <= to
}

// The entry of the shift in hand at a place; all other bytes stay. In a part of its own no number has to be tested for room.
fn put_entry(list: &mut [u8], at: usize, walk: Walk)
    requires { at ≤ 523920 }
    ensures { list.new ≡ sets list.old at (bytes_of (numbers_of (in_hand walk))) }
{
    if list.len() < at + 16 {
        put_numbers(list, at, walk.entry());
    } else {
        put_numbers(&mut list[at..at + 16], 0, walk.entry());
    }
}

fn put_numbers(list: &mut [u8], at: usize, e: Shift)
    requires { at ≤ 523920 }
    ensures { list.new ≡ sets list.old at (bytes_of (numbers_of e)) }
{
    put(list, at, e.first);
    put(list, at + 2, e.last);
    put(list, at + 4, u16::from_le_bytes([e.kind, e.route]));
    put(list, at + 6, u16::from(e.end));
    put32(list, at + 8, e.request_time);
    put32(list, at + 12, e.age);
}
