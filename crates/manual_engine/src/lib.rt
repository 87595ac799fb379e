// The thirteen steps on the variables of machine m9: of the events that are a step's, the first that is enabled.
// Each function takes what its definition takes: the variables and, where a guard is on a time, the table.
#![tactic(auto)]

ghost use Rattle.std.specs.Prelude.{◌≡◌, Ok};
ghost use Rattle.manual.specs.Events.{answered, exceeded};
ghost use Rattle.manual.specs.Steps.{deliver, device_good, device_failed, engine_waits, take_from_neutral, take_to_neutral, take_gear_to_gear, ask_clutch, error_from_neutral, error_to_neutral, error_gear_to_gear, take, raise_error};
ghost use Rattle.manual.specs.Answers.{move_to, moved, moved_on};

use limits::Table;
use manual::{Event, Moved, Variables, or_else};
use shift::{Step, refusal};

// The first of some events that is enabled, the last where none is. By value, in nested calls: an array of events would be laid out whole
// in memory, and copied.
macro_rules! first_of {
    ($event:expr $(,)?) => { $event };
    ($event:expr, $($others:expr),+ $(,)?) => { or_else($event, first_of!($($others),+)) };
}

fn deliver(v: Variables) -> Event
    ensures { result ≡ deliver v }
{
    first_of!(
        manual_devices::Engine_Request_SyncSpeed(v),
        manual_devices::Engine_Request_ZeroTorque(v),
        manual_devices::Clutch_Request_Open(v),
        manual_devices::Clutch_Request_Close(v),
        manual_devices::Gear_Request_Release(v),
        manual_devices::Gear_Request_Set(v),
    )
}

fn device_good(v: Variables, table: Table) -> Event
    ensures { result ≡ device_good table v }
{
    first_of!(
        manual_devices::Engine_SyncSpeed(v),
        manual_devices::Engine_ZeroTorque(v),
        manual_devices::Clutch_Open(v, table),
        manual_devices::Clutch_Close(v, table),
        manual_devices::Gear_Release(v),
        manual_devices::Gear_Set(v),
    )
}

fn device_failed(v: Variables, table: Table) -> Event
    ensures { result ≡ device_failed table v }
{
    first_of!(
        manual_devices::Error_Clutch_Open(v, table),
        manual_devices::Error_Clutch_Close(v, table),
        manual_devices::Error_Gear_Release(v),
        manual_devices::Error_Gear_Set(v),
    )
}

fn engine_waits(v: Variables) -> Event
    ensures { result ≡ engine_waits v }
{
    or_else(
        manual_devices::Engine_WaitForSyncClutch(v),
        manual_devices::Engine_WaitForZeroClutch(v),
    )
}

fn take_from_neutral(v: Variables, table: Table) -> Event
    ensures { result ≡ take_from_neutral table v }
{
    first_of!(
        manual_neutral::FromNeu_SyncSpeed(v, table),
        manual_neutral::FromNeu_OpenClutch(v),
        manual_neutral::FromNeu_SetGear_NoClutch(v),
        manual_neutral::FromNeu_SetGear_Clutch(v),
        manual_neutral::FromNeu_CloseClutch(v),
    )
}

fn take_to_neutral(v: Variables, table: Table) -> Event
    ensures { result ≡ take_to_neutral table v }
{
    first_of!(
        manual_neutral::ToNeu_ZeroTorque(v, table),
        manual_neutral::ToNeu_OpenClutch(v),
        manual_neutral::ToNeu_Release_NoClutch(v),
        manual_neutral::ToNeu_Release_Clutch(v),
        manual_neutral::ToNeu_CloseClutch(v),
    )
}

fn take_gear_to_gear(v: Variables, table: Table) -> Event
    ensures { result ≡ take_gear_to_gear table v }
{
    first_of!(
        manual_gears::NoNeu_ZeroTorque(v, table),
        manual_gears::NoNeu_OpenClutch_Releasing(v),
        manual_gears::NoNeu_Release_NoClutch(v),
        manual_gears::NoNeu_Release_Clutch(v),
        manual_gears::NoNeu_SyncSpeed(v, table),
        manual_gears::NoNeu_OpenClutch_Setting(v),
        manual_gears::NoNeu_SetGear_NoClutch(v),
        manual_gears::NoNeu_SetGear_ReleasingClutch(v),
        manual_gears::NoNeu_SetGear_SettingClutch(v),
        manual_gears::NoNeu_CloseClutch_Setting(v),
        manual_gears::NoNeu_CloseClutch_Releasing(v),
    )
}

fn take(v: Variables, table: Table) -> Event
    ensures { result ≡ take table v }
{
    first_of!(
        take_from_neutral(v, table),
        take_to_neutral(v, table),
        take_gear_to_gear(v, table),
    )
}

fn ask_clutch(v: Variables, table: Table) -> Event
    ensures { result ≡ ask_clutch table v }
{
    first_of!(
        manual_neutral::FromNeu_RequestOpenClutch(v, table),
        manual_neutral::ToNeu_RequestOpenClutch(v, table),
        manual_gears::NoNeu_RequestOpenClutch_Releasing(v, table),
        manual_gears::NoNeu_RequestOpenClutch_Setting(v, table),
    )
}

fn error_from_neutral(v: Variables) -> Event
    ensures { result ≡ error_from_neutral v }
{
    first_of!(
        manual_neutral::Error_FromNeu_OpenClutch(v),
        manual_neutral::Error_FromNeu_SetGear_NoClutch(v),
        manual_neutral::Error_FromNeu_SetGear_Clutch(v),
        manual_neutral::Error_FromNeu_CloseClutch(v),
    )
}

fn error_to_neutral(v: Variables) -> Event
    ensures { result ≡ error_to_neutral v }
{
    first_of!(
        manual_neutral::Error_ToNeu_OpenClutch(v),
        manual_neutral::Error_ToNeu_Release_NoClutch(v),
        manual_neutral::Error_ToNeu_Release_Clutch(v),
        manual_neutral::Error_ToNeu_CloseClutch(v),
    )
}

fn error_gear_to_gear(v: Variables) -> Event
    ensures { result ≡ error_gear_to_gear v }
{
    first_of!(
        manual_gears::Error_NoNeu_OpenClutch_Releasing(v),
        manual_gears::Error_NoNeu_Release_NoClutch(v),
        manual_gears::Error_NoNeu_Release_Clutch(v),
        manual_gears::Error_NoNeu_OpenClutch_Setting(v),
        manual_gears::Error_NoNeu_SetGear_NoClutch(v),
        manual_gears::Error_NoNeu_SetGear_ReleasingClutch(v),
        manual_gears::Error_NoNeu_SetGear_SettingClutch(v),
        manual_gears::Error_NoNeu_CloseClutch_Setting(v),
        manual_gears::Error_NoNeu_CloseClutch_Releasing(v),
    )
}

fn raise_error(v: Variables) -> Event
    ensures { result ≡ raise_error v }
{
    first_of!(
        error_from_neutral(v),
        error_to_neutral(v),
        error_gear_to_gear(v),
    )
}

// What an event makes of a step: refused by 7 where it is not enabled, and then by its number, document 01's; refused, the variables are
// those given.
fn settled(e: Event, v: Variables) -> Moved
    ensures { result ≡ move_to (answered e) (exceeded e) e.after v }
{
    if !e.enabled {
        return Moved::refused(7, 0, v);
    }
    if e.number != 0 {
        return Moved::refused(e.number, e.excess, v);
    }
    Moved::accepted(e.after)
}

// A step, under an admitted table.
fn moved(v: Variables, table: Table, x: Step) -> Moved
    ensures { result ≡ moved table v (Ok x) }
{
    let e = match x {
        Step::FromNeutral => manual_devices::RequestFromNeu(v),
        Step::GearToGear => manual_devices::RequestNoNeu(v),
        Step::ToNeutral => manual_devices::RequestToNeu(v),
        Step::Deliver => deliver(v),
        Step::DeviceGood => device_good(v, table),
        Step::DeviceFailed => device_failed(v, table),
        Step::EngineWaits => engine_waits(v),
        Step::Take => take(v, table),
        Step::AskClutch => ask_clutch(v, table),
        Step::RaiseError => raise_error(v),
        Step::Finish => manual_devices::FINAL(v),
        Step::Tick(tick) => {
            return manual_ticks::Tick_Tock(v, table, tick);
        }
        Step::Reset => manual_devices::RESET(v),
    };
    settled(e, v)
}

// One step, given by code, middle byte and amount, under any table.
pub fn step(v: Variables, table: Table, code: u8, middle: u8, amount: u32) -> Moved
    ensures { result ≡ moved_on table v code middle amount }
{
    if let Err(rule) = table.admit() {
        return Moved {
            number: 4,
            rule: rule.number(),
            excess: 0,
            variables: v,
        };
    }
    let reading = Step::of(code, middle, amount);
    let Ok(x) = reading else {
        return Moved::refused(refusal(reading), 0, v);
    };
    moved(v, table, x)
}
