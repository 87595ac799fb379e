// The shift machine of document 01: one step on any state, any table, any code and any amount.
#![tactic(auto)]

ghost use Rattle.std.specs.Prelude.{◌≡◌, cond, ◌&&◌, ◌/◌, ◌%◌, leb};
ghost use Rattle.checks.specs.Checks.{first};
ghost use Rattle.shift.specs.declared.Misread.TheVariants.{WrongCode, WrongAmount};
ghost use Rattle.shift.specs.Numbers.{number_of};
ghost use Rattle.shift.specs.States.{start};
ghost use Rattle.shift.specs.Steps.{allowed};
ghost use Rattle.shift.specs.Answers.{plain, ticking, reading, refusal, checks_of, refused, answer_to, judged, step_on};

use limits::Table;

mod effects;
mod excess;
mod guards;

// Phase, stage and box are document 01's numbers: C reads the state as it lies, as `munasirel_state` of munasirel.h.
#[repr(C)]
#[derive(Clone, Copy)]
pub struct State {
    pub clock: u32,
    pub gear_box: u8,
    pub phase: u8,
    pub phase_time: u32,
    pub stage: u8,
    pub stage_time: u32,
    pub request_time: u32,
    pub failed_phase: u8,
}

// The thirteen steps, in the order of their codes; a tick has its amount.
#[derive(Clone, Copy)]
pub enum Step {
    FromNeutral,
    GearToGear,
    ToNeutral,
    Deliver,
    DeviceGood,
    DeviceFailed,
    EngineWaits,
    Take,
    AskClutch,
    RaiseError,
    Finish,
    Tick(u32),
    Reset,
}

// What a code, a middle byte and an amount mean: a step, or why they are none.
pub type Reading = Result<Step, Misread>;

// Why a record is no step, by document 01's number of the refusal.
#[derive(Clone, Copy, PartialEq, Eq)]
pub enum Misread {
    WrongCode = 5,
    WrongAmount = 6,
}

// What refuses a step of a state, by document 01's number of it.
#[derive(Clone, Copy, PartialEq, Eq)]
pub enum Refused {
    NotAllowed = 7,
    WrongSide = 8,
    TooEarly = 9,
    TooLate = 10,
    PastPhase = 11,
    PastStage = 12,
    PastClock = 13,
}

// 0 and the state after the step, or the number that refuses it and the state that was given; the rule is 0 except with 4. The excess
// is the milliseconds by which the step is too early or past the limit, with 9 to 13, and else 0.
// A struct and no Result: a refused step gives back the state it was given, as document 01's demand 1 has it. Its numbers are those of
// step_on: munasirel_advance hands them to C.
#[derive(Clone, Copy)]
pub struct Answer {
    pub number: u8,
    pub rule: u8,
    pub excess: u64,
    pub state: State,
}

// Code, middle byte and amount stand apart, as `State::step` is called and as the definition reading takes them.
impl Step {
    // What a code, a middle byte and an amount mean, for any of them.
    pub fn of(code: u8, middle: u8, amount: u32) -> Reading
        ensures { result ≡ reading code middle amount }
    {
        Step::of_head(code as u32 + 256 * (middle as u32), amount)
    }

    // The same of a code and a middle byte as one number, the code below.
    pub fn of_head(head: u32, amount: u32) -> Reading
        ensures { result ≡ reading (head % 256) (head / 256) amount }
    {
        // Most records are ticks: what has an amount is asked for first.
        if amount != 0 {
            if head == 12 {
                return ticking(0, amount);
            }
            return Err(wrong(head));
        }
        match head {
            1 => Ok(Step::FromNeutral),
            2 => Ok(Step::GearToGear),
            3 => Ok(Step::ToNeutral),
            4 => Ok(Step::Deliver),
            5 => Ok(Step::DeviceGood),
            6 => Ok(Step::DeviceFailed),
            7 => Ok(Step::EngineWaits),
            8 => Ok(Step::Take),
            9 => Ok(Step::AskClutch),
            10 => Ok(Step::RaiseError),
            11 => Ok(Step::Finish),
            13 => Ok(Step::Reset),
            _ => Err(wrong(head)),
        }
    }
}

// No step: there is no such code, or its middle byte or its amount is wrong.
fn wrong(head: u32) -> Misread
    ensures { result ≡ cond (leb 1 (head % 256) && leb (head % 256) 13) WrongAmount WrongCode }
{
    match head % 256 {
        1..=13 => Misread::WrongAmount,
        _ => Misread::WrongCode,
    }
}

// A step other than a tick: its middle byte and its amount are 0.
fn plain(x: Step, middle: u8, amount: u32) -> Reading
    ensures { result ≡ plain x middle amount }
{
    match (middle, amount) {
        (0, 0) => Ok(x),
        _ => Err(Misread::WrongAmount),
    }
}

// A tick: its middle byte is 0, its amount is 1 to 65,535.
fn ticking(middle: u8, amount: u32) -> Reading
    ensures { result ≡ ticking middle amount }
{
    match (middle, amount) {
        (0, 1..=65535) => Ok(Step::Tick(amount)),
        _ => Err(Misread::WrongAmount),
    }
}

// Refusal 5 or 6 of a code, a middle byte and an amount, or 0: what `Step::of` reads, for those who don't ask for the step. A number of
// document 01's list, of which refusal_of of proofs/Refusals.antt speaks.
pub fn refusal_of(code: u8, middle: u8, amount: u32) -> u8
    ensures { result ≡ refusal (reading code middle amount) }
{
    match code {
        0 | 14..=255 => Misread::WrongCode as u8,
        12 => refusal(ticking(middle, amount)),
        // The other codes are read alike.
        _ => refusal(plain(Step::Finish, middle, amount)),
    }
}

// Refusal 5 or 6 of a reading, 0 for a step, as the definition refusal has it: behind a let-else, document 01's form, who calls has no
// error in hand.
pub fn refusal(reading: Reading) -> u8
    ensures { result ≡ refusal reading }
{
    match reading {
        Ok(_) => 0,
        Err(misread) => misread as u8,
    }
}

impl Refused {
    // The number of what refuses a step.
    pub fn number(self) -> u8
        ensures { result ≡ number_of self }
    {
        self as u8
    }
}

impl State {
    // The state in which every vehicle starts.
    pub fn start() -> State
        ensures { result ≡ start }
    {
        State {
            clock: 0,
            gear_box: 0,
            phase: 0,
            phase_time: 0,
            stage: 0,
            stage_time: 0,
            request_time: 0,
            failed_phase: 0,
        }
    }

    // One step on any state and table: refusals 4, 5, 6, 7, 8, 9, 10, and for a tick 4, 5, 6, 7, 13, 12, 11.
    pub fn step(self, table: Table, code: u8, amount: u32) -> Answer
        ensures { result ≡ step_on table self code amount }
    {
        if let Err(rule) = table.admit() {
            return Answer {
                number: 4,
                rule: rule.number(),
                excess: 0,
                state: self,
            };
        }
        self.judged(table, Step::of(code, 0, amount))
    }

    // The same for what was read, under a table that has been tested.
    fn judged(self, table: Table, reading: Reading) -> Answer
        ensures { result ≡ judged table self reading }
    {
        let Err(unlisted) = self.unlisted() else {
            return self.judged_listed(table, reading);
        };
        match reading {
            Ok(_) => self.refused(unlisted.number(), 0),
            Err(misread) => self.refused(misread as u8, 0),
        }
    }

    // The same for a state that has been tested too: what `judged` checks but for the state's own 7.
    pub fn judged_listed(self, table: Table, reading: Reading) -> Answer
        ensures { result ≡ answer_to table self reading (first (checks_of (allowed table self) reading)) }
    {
        let Ok(x) = reading else {
            return self.refused(refusal(reading), 0);
        };
        self.judged_step(table, x)
    }

    // The same for a step.
    pub fn judged_step(self, table: Table, x: Step) -> Answer
        ensures { result ≡ answer_to table self (Ok x) (first (allowed table self x)) }
    {
        if let Err(refusal) = self.guard(table, x) {
            let now = self.clock_after(x);
            return self.refused(refusal.number(), self.excess(table, x, now, refusal));
        }
        let next = self.effect(x);
        Answer {
            number: 0,
            rule: 0,
            excess: 0,
            state: next,
        }
    }

    // A refused step gives back the state it was given.
    fn refused(self, number: u8, excess: u64) -> Answer
        ensures { result ≡ refused number excess self }
    {
        Answer {
            number,
            rule: 0,
            excess,
            state: self,
        }
    }
}
