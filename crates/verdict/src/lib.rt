// Judging a step file's bytes, and the line that says the verdict.
#![tactic(auto)]

ghost use Rattle.std.specs.Prelude.{◌≡◌, ℕ, ◌+◌, ◌*◌, ◌/◌, ◌%◌, ◌≤◌, ◌<◌, length, get_or};
ghost use Rattle.checks.specs.Checks.{first};
ghost use Rattle.limits.specs.declared.Table.{Table};
ghost use Rattle.limits.specs.Limits.{entries};
ghost use Rattle.shift.specs.Numbers.{number_of};
ghost use Rattle.shift.specs.Steps.{ticked};
ghost use Rattle.shift.specs.Answers.{listed};
ghost use Rattle.shift.specs.Runs.{run};
ghost use Rattle.stepfile.specs.Records.{record_of, records_in};
ghost use Rattle.line.specs.Laying.{laid_in, laid, after};
ghost use Rattle.verdict.specs.Verdicts.{of_run, verdict_of};
ghost use Rattle.verdict.specs.Said.{word_for, said, line_for};

use limits::Table;
use line::{Line, NoRoom, Word};
use shift::{Reading, Refused, State, Step, refusal};

// Accepted, number 0, with the end state and the number of records; or refused with the number, the index of the refused record, how
// far over it is and the state before it. With 1 to 4 the index is 0 and the state the start; the rule is 0 except with 4. Number and rule
// are plain numbers: munasirel_verdict hands the struct to C.
#[repr(C)]
#[derive(Clone, Copy)]
pub struct Verdict {
    pub number: u8,
    pub rule: u8,
    pub index: usize,
    pub excess: u64,
    pub state: State,
}

// The verdict on a file's bytes, whatever they are.
pub fn judge(file: &[u8]) -> Verdict
    ensures { result ≡ verdict_of file.now }
{
    if let Err(unread) = stepfile::refused(file) {
        return Verdict {
            number: unread.number(),
            rule: unread.rule(),
            index: 0,
            excess: 0,
            state: State::start(),
        };
    }
    let table = stepfile::table(file);
    judge_under(
        State::start(),
        table,
        &table.entries(),
        stepfile::from_offset(file),
    )
}

// Lays the line of a file's verdict at the start of `out`, or changes no byte where it does not fit.
pub fn line(file: &[u8], out: &mut [u8]) -> Result<usize, NoRoom>
    ensures value { laid_in result ≡ laid (line_for file.now) out.old }
    ensures out_after { out.new ≡ after (line_for file.now) out.old }
{
    line::lay(Line::from(judge(file)), out)
}

// What the line says of a verdict.
impl From<Verdict> for Line {
    ghost from_gives = { λ verdict line. line ≡ said verdict };

    fn from(verdict: Verdict) -> Line {
        let state = verdict.state;
        Line {
            word: word_of(verdict.number),
            count: verdict.index as u64,
            number: verdict.number,
            clock: state.clock,
            phase: state.phase,
            gear_box: state.gear_box,
            excess: verdict.excess,
        }
    }
}

// Accepted for 0, unread for 1 to 4, refused for every other number.
fn word_of(number: u8) -> Word
    ensures { result ≡ word_for number }
{
    match number {
        0 => Word::Accepted,
        1..=4 => Word::Unread,
        _ => Word::Refused,
    }
}

// Judges records from any state on, under a table that has been tested. What is left over behind them is no record.
pub fn judge_records(first: State, table: Table, records: &[u8]) -> Verdict
    ensures { result ≡ of_run (run table first (records_in records.now)) }
{
    judge_under(first, table, &table.entries(), records)
}

// The same with the table's entries beside it, from which limits are read by their numbers. The two stand apart: the step takes the table.
fn judge_under(first: State, table: Table, limits: &[u16; 22], records: &[u8]) -> Verdict
    requires { limits.now ≡ entries table }
    ensures { result ≡ of_run (run table first (records_in records.now)) }
{
    match first.unlisted() {
        Ok(()) => judge_listed(first, table, limits, records),
        Err(unlisted) => judge_unlisted(first, unlisted, records),
    }
}

// The same from a state that is not listed, and refused for it: no record is accepted.
fn judge_unlisted(state: State, unlisted: Refused, records: &[u8]) -> Verdict
    requires { number_of unlisted ≡ first (listed state) }
    ensures { (t : Table) → result ≡ of_run (run t state (records_in records.now)) }
{
    let [code, middle, low, high, ..] = *records else {
        return answered(0, 0, 0, state);
    };
    // Only the number is asked for: a match on `stepfile::record` would have the same two arms, and be a second reader beside the loop's.
    let number = match stepfile::record_refusal(code, middle, low, high) {
        0 => unlisted.number(),
        wrong => wrong,
    };
    answered(number, 0, 0, state)
}

// The same from a listed state, which every accepted record leads to another of. The last clock that a tick may reach is worked out
// after the other steps: no tick moves it. Entering a phase moves the phase's end and its device limit, no other step does.
fn judge_listed(begin: State, table: Table, limits: &[u16; 22], records: &[u8]) -> Verdict
    requires { (first (listed begin) ≡ 0) × (limits.now ≡ entries table) }
    ensures { result ≡ of_run (run table begin (records_in records.now)) }
{
    // Field by field, here and below: a state that is copied whole brings the bytes between its fields along, which the loop then keeps.
    // So a parked night takes 16 instructions a record, at most half of C's; else 21.
    let mut state = State {
        clock: begin.clock,
        ..begin
    };
    // The three limits stand apart, as deadline_by, late_by and over_by take them: entering a phase moves two of them and not the third.
    let channel = table.channel_dl;
    let mut phase_end = deadlines::phase_end(state, limits);
    let mut device = deadlines::device_limit(state, limits);
    let mut deadline = deadlines::deadline(state, phase_end, device, channel);
    let count = records.len() / 4;
    // By index, which the verdict hands to C; a record is fetched from its place as one number.
    for index in 0..count {
        let reading = record_at(records, 4 * index);
        let Ok(x) = reading else {
            return answered(refusal(reading), index, 0, state);
        };
        let Step::Tick(amount) = x else {
            let answer = state.judged_step(table, x);
            let number = answer.number;
            if number != 0 {
                return answered(number, index, answer.excess, state);
            }
            let next = answer.state;
            state = State {
                clock: next.clock,
                ..next
            };
            if deadlines::enters(x) {
                phase_end = deadlines::phase_end(state, limits);
                device = deadlines::device_limit(state, limits);
            }
            deadline = deadlines::deadline(state, phase_end, device, channel);
            continue;
        };
        let clock = later(state.clock, amount);
        if deadline < clock {
            let number = deadlines::late(state, clock, device, channel);
            let over = deadlines::over(state, clock, number, phase_end, device, channel);
            return answered(number, index, over, state);
        }
        state = clocked(state, clock);
    }
    answered(0, count, 0, state)
}

// The verdict where so many records were accepted, and the next is refused with this number and so far over, or with 0 there is none.
fn answered(number: u8, index: usize, excess: u64, state: State) -> Verdict
    ensures { result ≡ of_run (record { count = index; number = number; excess = excess; state = state }) }
{
    // Field by field, as in the loop.
    Verdict {
        number,
        rule: 0,
        index,
        excess,
        state: State {
            clock: state.clock,
            ..state
        },
    }
}

// The clock that a tick leads to.
fn later(clock: u32, amount: u32) -> u64
    ensures { result ≡ clock + amount }
{
    clock as u64 + (amount as u64)
}

// The state at a later clock.
fn clocked(state: State, clock: u64) -> State
    requires { clock ≤ 4294967295 }
    ensures { (n : ℕ) → clock ≡ state.clock + n → result ≡ ticked n state }
{
    State {
        clock: clock as u32,
        ..state
    }
}

// What the record at a place means.
fn record_at(records: &[u8], at: usize) -> Reading
    requires { at + 3 < length records.now }
    ensures { result ≡ record_of (get_or records.now at 0) (get_or records.now (at + 1) 0) (get_or records.now (at + 2) 0) (get_or records.now (at + 3) 0) }
{
    let word = word_at(records, at);
    Step::of_head(word % 65536, word / 65536)
}

// Its four bytes as one number, which is fetched at once: code and middle byte below, the amount above.
fn word_at(records: &[u8], at: usize) -> u32
    requires { at + 3 < length records.now }
    ensures { (result % 65536 % 256 ≡ get_or records.now at 0) × (result % 65536 / 256 ≡ get_or records.now (at + 1) 0) × (result / 65536 ≡ get_or records.now (at + 2) 0 + 256 * get_or records.now (at + 3) 0) }
{
    u32::from_le_bytes([
        records[at],
        records[at + 1],
        records[at + 2],
        records[at + 3],
    ])
}
