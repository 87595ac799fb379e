// Until when ticks are allowed: the last clock that a tick may reach. No tick moves it, so the judge works it out after the other steps.
#![tactic(auto)]

ghost use Rattle.std.specs.Prelude.{◌≡◌};
ghost use Rattle.limits.specs.Limits.{table_of};
ghost use Rattle.phases.specs.Phases.{order_of, device_limit};
ghost use Rattle.deadlines.specs.Deadlines.{phase_end_of, deadline_by, late_by, over_by, enters};

use limits::entry_at;
use phases::{device_entry, is_unfinished, order_of, phase_entry};
use shift::{State, Step};
use times::{beyond, bound};

// The last clock by the largest one and by the limit of the phase, from a table's entries.
pub fn phase_end(state: State, entries: &[u16; 22]) -> u64
    ensures { result ≡ phase_end_of (table_of entries.now) state }
{
    if is_unfinished(state.phase) {
        let limit = entry_at(entries, phase_entry(order_of(state.phase)));
        return bound(state.phase_time, limit).min(4294967295);
    }
    4294967295
}

// The device limit of the phase, from a table's entries, which the judge's loop has at hand: `phases::device_limit` makes them of a table.
pub fn device_limit(state: State, entries: &[u16; 22]) -> u16
    ensures { result ≡ device_limit (table_of entries.now) (order_of state.phase) }
{
    entry_at(entries, device_entry(order_of(state.phase)))
}

// The last clock, by the limit of the channel or the device too. State and limits stand apart, here and below, as the definitions
// deadline_by, late_by and over_by take them: the judge's loop replaces them one by one.
pub fn deadline(state: State, phase_end: u64, device: u16, channel: u16) -> u64
    ensures { result ≡ deadline_by phase_end device channel state }
{
    if !is_unfinished(state.phase) {
        return phase_end;
    }
    match state.stage {
        1 | 3 => phase_end.min(bound(state.stage_time, channel)),
        2 => phase_end.min(bound(state.stage_time, device)),
        _ => phase_end,
    }
}

// The number that refuses a tick to a clock past the deadline. A number here and in `over`, and no `shift::Refused`: the judge puts it into
// the verdict, which C reads, and hands it to `over`, whose contract answers for any.
pub fn late(state: State, clock: u64, device: u16, channel: u16) -> u8
    ensures { result ≡ late_by device channel state clock }
{
    if 4294967295 < clock {
        return 13;
    }
    if deadline(state, clock, device, channel) < clock {
        return 12;
    }
    11
}

// How far a tick to a clock past the deadline is over, by the number that refuses it.
pub fn over(state: State, clock: u64, number: u8, phase_end: u64, device: u16, channel: u16) -> u64
    ensures { result ≡ over_by phase_end device channel state clock number }
{
    match number {
        11 => beyond(clock, phase_end),
        12 => beyond(clock, deadline(state, clock, device, channel)),
        _ => beyond(clock, 4294967295),
    }
}

// Whether a step enters a phase. The others keep the phase and the time it was entered.
pub fn enters(x: Step) -> bool
    ensures { result ≡ enters x }
{
    match x {
        Step::FromNeutral => true,
        Step::GearToGear => true,
        Step::ToNeutral => true,
        Step::Deliver => false,
        Step::DeviceGood => false,
        Step::DeviceFailed => false,
        Step::EngineWaits => false,
        Step::Take => true,
        Step::AskClutch => true,
        Step::RaiseError => true,
        Step::Finish => true,
        Step::Tick(_) => false,
        Step::Reset => true,
    }
}
