// What refuses a step, if anything does: for each step its checks, in the order of their numbers. Table, step and clock are handed on
// apart, as the definitions of specs/Steps.antt take them.
ghost use Rattle.std.specs.Prelude.{◌≡◌, cond, ◌++◌, ℕ, ◌+◌, ltb};
ghost use Rattle.checks.specs.Checks.{first};
ghost use Rattle.phases.specs.Phases.{«open», close, order_of, unfinished};
ghost use Rattle.shift.specs.States.{working, good, waiting};
ghost use Rattle.shift.specs.Steps.{rests_in, shifts_in, in_device, in_engine, good_bound, failed_bound, in_report_time, in_take_time, in_ask_time, in_tick_time, stands_in, stage_bound, phase_bound, limited, allowed};
ghost use Rattle.shift.specs.Numbers.{number_in};
ghost use Rattle.shift.specs.Answers.{listed};

use crate::{Refused, State, Step};
use limits::Table;
use phases::{
    CLOSE, OPEN, ZERO_TORQUE, device_limit, earliest_ask, is_unfinished, latest_take, order_of,
    phase_limit,
};
use times::{is_early, is_late, overruns, passes};

impl State {
    // What refuses the step of a listed state.
    pub(crate) fn guard(self, table: Table, x: Step) -> Result<(), Refused>
        ensures { number_in result ≡ first (allowed table self x) }
    {
        match x {
            Step::FromNeutral => self.rests_in(0),
            Step::GearToGear => self.rests_in(1),
            Step::ToNeutral => self.rests_in(1),
            Step::Deliver => self.shifts_in(1),
            Step::DeviceGood => self.in_good_time(table),
            Step::DeviceFailed => self.in_failed_time(table),
            Step::EngineWaits => self.in_engine(2),
            Step::Take => self.in_take_time(table),
            Step::AskClutch => self.in_ask_time(table),
            Step::RaiseError => self.shifts_in(4),
            Step::Finish => self.stands_in(22),
            Step::Tick(amount) => self.in_tick_time(table, amount),
            Step::Reset => self.stands_in(23),
        }
    }

    // Not allowed: a phase above 23, an unlisted stage or a box above 1.
    pub fn unlisted(self) -> Result<(), Refused>
        ensures { number_in result ≡ first (listed self) }
    {
        if self.phase > 23 || self.stage > 5 || self.gear_box > 1 {
            return Err(Refused::NotAllowed);
        }
        Ok(())
    }

    // At rest, and the box on this side.
    fn rests_in(self, side: u8) -> Result<(), Refused>
        ensures { number_in result ≡ first (rests_in self side) }
    {
        if self.phase != 0 {
            return Err(Refused::NotAllowed);
        }
        if self.gear_box != side {
            return Err(Refused::WrongSide);
        }
        Ok(())
    }

    // In phase 1 to 21, and in this stage.
    fn shifts_in(self, wanted: u8) -> Result<(), Refused>
        ensures { number_in result ≡ first (shifts_in self wanted) }
    {
        if is_unfinished(self.phase) && self.stage == wanted {
            return Ok(());
        }
        Err(Refused::NotAllowed)
    }

    // Working on a clutch or gear order.
    fn in_device(self) -> Result<(), Refused>
        ensures { number_in result ≡ first (shifts_in self working ++ in_device self) }
    {
        self.shifts_in(2)?;
        if order_of(self.phase) <= ZERO_TORQUE {
            return Err(Refused::NotAllowed);
        }
        Ok(())
    }

    // In this stage of an engine order.
    fn in_engine(self, wanted: u8) -> Result<(), Refused>
        ensures { number_in result ≡ first (shifts_in self wanted ++ in_engine self) }
    {
        self.shifts_in(wanted)?;
        if ZERO_TORQUE < order_of(self.phase) {
            return Err(Refused::NotAllowed);
        }
        Ok(())
    }

    // Working, and on a clutch order not before its plain delay.
    fn in_good_time(self, table: Table) -> Result<(), Refused>
        ensures { number_in result ≡ first (shifts_in self working ++ in_report_time self (good_bound table self)) }
    {
        self.shifts_in(2)?;
        self.in_report_time(table.clutch_open_de, table.clutch_close_de)
    }

    // Working on a clutch or gear order, and on a clutch order not before its error delay.
    fn in_failed_time(self, table: Table) -> Result<(), Refused>
        ensures { number_in result ≡ first (shifts_in self working ++ (in_device self ++ in_report_time self (failed_bound table self))) }
    {
        self.in_device()?;
        self.in_report_time(table.error_clutch_open_de, table.error_clutch_close_de)
    }

    // In open phases not before the one delay, in close phases not before the other.
    fn in_report_time(self, opening: u16, closing: u16) -> Result<(), Refused>
        ensures { (delay : ℕ) → (order_of self.phase ≡ «open» → delay ≡ opening) → (order_of self.phase ≡ close → delay ≡ closing) → number_in result ≡ first (in_report_time self (self.stage_time + delay)) }
    {
        match order_of(self.phase) {
            OPEN => self.not_before(opening),
            CLOSE => self.not_before(closing),
            _ => Ok(()),
        }
    }

    // Not before this delay of the stage.
    fn not_before(self, delay: u16) -> Result<(), Refused>
        ensures { number_in result ≡ cond (ltb self.clock (self.stage_time + delay)) 9 0 }
    {
        if is_early(self.clock, self.stage_time, delay) {
            return Err(Refused::TooEarly);
        }
        Ok(())
    }

    // The order is good, and in an engine phase its EX is not past.
    fn in_take_time(self, table: Table) -> Result<(), Refused>
        ensures { number_in result ≡ first (shifts_in self good ++ in_take_time table self) }
    {
        self.shifts_in(3)?;
        let order = order_of(self.phase);
        if ZERO_TORQUE < order {
            return Ok(());
        }
        if is_late(self.clock, self.phase_time, latest_take(table, order)) {
            return Err(Refused::TooLate);
        }
        Ok(())
    }

    // The engine waits, and not before the DE of its phase.
    fn in_ask_time(self, table: Table) -> Result<(), Refused>
        ensures { number_in result ≡ first (shifts_in self waiting ++ (in_engine self ++ in_ask_time table self)) }
    {
        self.in_engine(5)?;
        let de = earliest_ask(table, order_of(self.phase));
        if is_early(self.clock, self.phase_time, de) {
            return Err(Refused::TooEarly);
        }
        Ok(())
    }

    // In this phase.
    fn stands_in(self, wanted: u8) -> Result<(), Refused>
        ensures { number_in result ≡ first (stands_in self wanted) }
    {
        if self.phase != wanted {
            return Err(Refused::NotAllowed);
        }
        Ok(())
    }

    // The clock can be moved by this amount.
    fn in_tick_time(self, table: Table, amount: u32) -> Result<(), Refused>
        ensures { number_in result ≡ first (in_tick_time table self (self.clock + amount)) }
    {
        if overruns(self.clock, amount) {
            return Err(Refused::PastClock);
        }
        let now = (self.clock + amount) as u64;
        if self.passes_stage(table, now) {
            return Err(Refused::PastStage);
        }
        if self.passes_phase(table, now) {
            return Err(Refused::PastPhase);
        }
        Ok(())
    }

    // The clock `now` is past the channel's or the device's limit.
    fn passes_stage(self, table: Table, now: u64) -> bool
        ensures { result ≡ ltb (stage_bound table self) (cond (limited self) now 0) }
    {
        if !is_unfinished(self.phase) {
            return false;
        }
        let device = device_limit(table, order_of(self.phase));
        match self.stage {
            1 | 3 => passes(now, self.stage_time, table.channel_dl),
            2 => passes(now, self.stage_time, device),
            _ => false,
        }
    }

    // The clock `now` is past the phase's limit.
    fn passes_phase(self, table: Table, now: u64) -> bool
        ensures { result ≡ ltb (phase_bound table self) (cond (unfinished self.phase) now 0) }
    {
        let limit = phase_limit(table, order_of(self.phase));
        is_unfinished(self.phase) && passes(now, self.phase_time, limit)
    }
}
