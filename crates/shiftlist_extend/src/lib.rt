// Extending the list of a file's shifts by records that were appended to the file, without a step through the old ones.
#![tactic(auto)]

ghost use Rattle.std.specs.Prelude.{◌≡◌, ◌-◌, ◌==◌, if◌then◌else◌};
ghost use Rattle.checks.specs.Checks.{first};
ghost use Rattle.limits.specs.Rules.{broken_rule};
ghost use Rattle.shiftlist.specs.Lists.{shift_at, refused_by};
ghost use Rattle.shiftlist.specs.Walks.{unless_0, laid_size, laid_in};
ghost use Rattle.shiftlist_extend.specs.Extending.{is_open, is_over, fits, grounds, extended_of, list_after};
ghost use Rattle.shiftlist_extend.specs.Resuming.{number_of, rule_of, number_in, rule_in, place_of, resumed_on};

use limits::{Rule, Table};
use numbers::u32_at;
use phases::is_unfinished;
use shift::State;
use shiftlist::lay::lay;
use shiftlist::walk::{Walk, age_of};
use shiftlist::{Listed, Shift, shift_at};
use stepfile::write::most_for;

// Extends the list that the first `held` bytes hold, which is that of a file of `count` records that end in this state, by the records
// that follow them; or changes no byte: 15 where more is held than there is, 1, 2 and 3 of the list, 2 for too many records or more
// shifts than records, 4, 14 where state and list do not fit, the judge's own with the index in the longer file, 15. What is left over
// behind the records is no record.
pub fn extend(
    list: &mut [u8],
    held: usize,
    state: State,
    count: u32,
    table: Table,
    records: &[u8],
) -> Listed
    ensures value { result ≡ extended_of list.old held state count table records.now }
    ensures list_after { list.new ≡ list_after list.old held state count table records.now }
{
    let end = End { held, state, count };
    if let Err(ground) = end.ground(list, table, records) {
        return ground.listed();
    }
    // A verdict has its number for C: munasirel_verdict hands it over.
    let verdict = verdict::judge_records(state, table, records);
    let number = verdict.number;
    if number != 0 {
        let index = count as usize + verdict.index;
        return Listed::refused(number, 0, index, verdict.excess);
    }
    let Some(size) = end.go_on(list, records) else {
        return Listed::refused(15, 0, 0, 0);
    };
    Listed::long(size)
}

// What refuses list, file and state before the records are judged: the rule that the table breaks is told with it.
#[derive(Clone, Copy, Debug, PartialEq, Eq)]
enum Ground {
    Short,
    Header,
    Length,
    Broken(Rule),
    Unfit,
    NoRoom,
}

impl Ground {
    // The numbers are document 01's and 02's, of what munasirel_extend hands to C.
    fn listed(self) -> Listed
        ensures { result ≡ refused_by (number_of self) (rule_of self) 0 0 }
    {
        let (number, rule) = match self {
            Ground::Short => (1, 0),
            Ground::Header => (2, 0),
            Ground::Length => (3, 0),
            Ground::Broken(rule) => (4, rule.number()),
            Ground::Unfit => (14, 0),
            Ground::NoRoom => (15, 0),
        };
        Listed::refused(number, rule, 0, 0)
    }
}

// Where a file and its list end: with so many bytes of a buffer, and in this state after so many records.
#[derive(Clone, Copy)]
struct End {
    held: usize,
    state: State,
    count: u32,
}

impl End {
    // What refuses, in document 02's order.
    fn ground(self, list: &[u8], table: Table, records: &[u8]) -> Result<(), Ground>
        ensures number { number_in result ≡ first (grounds list.now self.held self.state self.count table records.now) }
        ensures rule { rule_in result ≡ (if number_in result == 4 then broken_rule table else 0) }
    {
        if list.len() < self.held {
            return Err(Ground::NoRoom);
        }
        if self.held < 8 {
            return Err(Ground::Short);
        }
        if u32_at(list, 4) != 8 {
            return Err(Ground::Header);
        }
        let shifts = u32_at(list, 0);
        if self.held != 8 + 16 * (shifts as usize) {
            return Err(Ground::Length);
        }
        let most = most_for(table);
        if most < self.count as usize + records.len() / 4 {
            return Err(Ground::Header);
        }
        if self.count < shifts {
            return Err(Ground::Header);
        }
        if let Err(rule) = table.admit() {
            return Err(Ground::Broken(rule));
        }
        if !self.does_fit(shifts, self.last(list)) {
            return Err(Ground::Unfit);
        }
        Ok(())
    }

    // Lays the entry of an open shift anew and those of new shifts behind it; answers as `lay` does.
    fn go_on(self, list: &mut [u8], records: &[u8]) -> Option<usize>
        ensures value { let walk = resumed_on self.state (shift_at list.old (self.held - 16)) in
            result ≡ unless_0 (laid_size list.old (place_of self.held self.state) walk self.count records.now) }
        ensures list_after { let walk = resumed_on self.state (shift_at list.old (self.held - 16)) in
            list.new ≡ laid_in list.old (place_of self.held self.state) walk self.count records.now }
    {
        let walk = self.resumed(self.last(list));
        lay(list, self.place(), walk, self.count, records)
    }

    // The place of an open shift's entry, else the list's end.
    fn place(self) -> usize
        ensures { result ≡ place_of self.held self.state }
    {
        let open = is_unfinished(self.state.phase);
        self.held.saturating_sub(if open { 16 } else { 0 })
    }

    // The list's last entry.
    fn last(self, list: &[u8]) -> Shift
        ensures { result ≡ shift_at list.now (self.held - 16) }
    {
        shift_at(list, self.held.saturating_sub(16))
    }

    // State and list fit, of a list of so many shifts with this last entry.
    fn does_fit(self, shifts: u32, e: Shift) -> bool
        ensures { result ≡ fits shifts e self.state self.count }
    {
        if is_unfinished(self.state.phase) {
            1 <= shifts && self.is_open(e)
        } else {
            shifts == 0 || self.is_over(e)
        }
    }

    // The entry is the shift that the state is in the midst of.
    fn is_open(self, e: Shift) -> bool
        ensures { result ≡ is_open e self.state self.count }
    {
        let time = self.state.request_time;
        let age = age_of(self.state.clock, time);
        e.end == 0 && u32::from(e.last) + 1 == self.count && e.request_time == time && e.age == age
    }

    // The entry is over, with one of the records.
    fn is_over(self, e: Shift) -> bool
        ensures { result ≡ is_over e self.count }
    {
        e.end != 0 && u32::from(e.last) < self.count
    }

    // The walk where the file ended: in the midst of a shift it holds the last entry's.
    fn resumed(self, e: Shift) -> Walk
        ensures { result ≡ resumed_on self.state e }
    {
        let clock = self.state.clock;
        let phase = self.state.phase;
        if !is_unfinished(phase) {
            return Walk {
                clock,
                phase,
                ..Walk::default()
            };
        }
        Walk {
            clock,
            phase,
            first: e.first,
            last: e.last,
            kind: e.kind,
            route: e.route,
            request_time: e.request_time,
        }
    }
}
