// How far over a refused step is: the milliseconds by which it is too early or past the limit.
ghost use Rattle.std.specs.Prelude.{◌≡◌};
ghost use Rattle.shift.specs.Numbers.{number_of};
ghost use Rattle.shift.specs.Steps.{effect, stage_limit};
ghost use Rattle.shift.specs.Excess.{early_bound, excess_by};

use crate::{Refused, State, Step};
use limits::Table;
use phases::{
    device_limit, earliest_ask, error_delay, latest_take, order_of, phase_limit, plain_delay,
};
use times::{beyond, bound};

impl State {
    // Of a step, by what refuses it; `now` is the clock that it leads to. What isn't refused by a time carries 0.
    pub(crate) fn excess(self, table: Table, x: Step, now: u64, refusal: Refused) -> u64
        ensures { result ≡ excess_by table self (early_bound table self x) now (number_of refusal) }
    {
        let order = order_of(self.phase);
        match refusal {
            Refused::TooEarly => beyond(self.early_bound(table, x), self.clock as u64),
            Refused::TooLate => beyond(
                self.clock as u64,
                bound(self.phase_time, latest_take(table, order)),
            ),
            Refused::PastPhase => beyond(now, bound(self.phase_time, phase_limit(table, order))),
            Refused::PastStage => beyond(now, bound(self.stage_time, self.stage_limit(table))),
            Refused::PastClock => beyond(now, 4294967295),
            Refused::NotAllowed | Refused::WrongSide => 0,
        }
    }

    // The limit of the channel or of the device in this stage, 0 where there is none: the definitions stage_limit and early_bound have 0 in
    // the place of none, so that an Option would be put back to it.
    fn stage_limit(self, table: Table) -> u16
        ensures { result ≡ stage_limit table self }
    {
        match self.stage {
            1 | 3 => table.channel_dl,
            2 => device_limit(table, order_of(self.phase)),
            _ => 0,
        }
    }

    // The clock before which a step is too early, 0 where it is never.
    fn early_bound(self, table: Table, x: Step) -> u64
        ensures { result ≡ early_bound table self x }
    {
        let order = order_of(self.phase);
        match x {
            Step::DeviceGood => bound(self.stage_time, plain_delay(table, order)),
            Step::DeviceFailed => bound(self.stage_time, error_delay(table, order)),
            Step::AskClutch => bound(self.phase_time, earliest_ask(table, order)),
            _ => 0,
        }
    }

    // The clock that a step leads to.
    pub(crate) fn clock_after(self, x: Step) -> u64
        ensures { result ≡ (effect self x).clock }
    {
        let Step::Tick(amount) = x else {
            return self.clock as u64;
        };
        self.clock as u64 + (amount as u64)
    }
}
