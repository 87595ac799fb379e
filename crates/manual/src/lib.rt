// Machine m9 of the manual: its variables under their own names, an event, and the comparisons that events share.
#![tactic(auto)]

ghost use Rattle.std.specs.Prelude.{◌≡◌, cond, ◌+◌, ◌-◌, leb, map, not, ◌==◌};
ghost use Rattle.std.specs.List.{find};
ghost use Rattle.manual.specs.Variables.{initialisation};
ghost use Rattle.manual.specs.Reset.{erred};
ghost use Rattle.manual.specs.Events.{free, or_else, first_of};
ghost use Rattle.manual.specs.Ticks.{past, past_at, past_else};
ghost use Rattle.manual.specs.Answers.{accepted, refused};

#[cfg(test)]
mod tests;

// The variables of machine m9, in the manual's order.
#[repr(C)]
#[derive(Clone, Copy, Default)]
pub struct Variables {
    pub time: u32,
    pub RequestFromNeuT: u32,
    pub RequestNoNeuT: u32,
    pub RequestToNeuT: u32,
    pub isNeu: bool,
    pub RequestFromNeu: bool,
    pub RequestNoNeu: bool,
    pub RequestToNeu: bool,
    pub FromNeu_SyncSpeed: bool,
    pub FromNeu_OpenClutch: bool,
    pub FromNeu_SetGear_NoClutch: bool,
    pub FromNeu_SetGear_Clutch: bool,
    pub FromNeu_CloseClutch: bool,
    pub Error_FromNeu_OpenClutch: bool,
    pub Error_FromNeu_SetGear_NoClutch: bool,
    pub Error_FromNeu_SetGear_Clutch: bool,
    pub Error_FromNeu_CloseClutch: bool,
    pub FromNeu_OpenClutchT: u32,
    pub FromNeu_SyncSpeedT: u32,
    pub FromNeu_SetGear_ClutchT: u32,
    pub ToNeu_ZeroTorque: bool,
    pub ToNeu_OpenClutch: bool,
    pub Error_ToNeu_OpenClutch: bool,
    pub ToNeu_Release_NoClutch: bool,
    pub Error_ToNeu_Release_NoClutch: bool,
    pub ToNeu_Release_Clutch: bool,
    pub Error_ToNeu_Release_Clutch: bool,
    pub ToNeu_CloseClutch: bool,
    pub Error_ToNeu_CloseClutch: bool,
    pub ToNeu_ZeroTorqueT: u32,
    pub ToNeu_OpenClutchT: u32,
    pub ToNeu_Release_ClutchT: u32,
    pub NoNeu_ZeroTorque: bool,
    pub NoNeu_Release_NoClutch: bool,
    pub NoNeu_OpenClutch_Releasing: bool,
    pub NoNeu_Release_Clutch: bool,
    pub NoNeu_SyncSpeed: bool,
    pub NoNeu_OpenClutch_Setting: bool,
    pub NoNeu_SetGear_NoClutch: bool,
    pub NoNeu_SetGear_ReleasingClutch: bool,
    pub NoNeu_SetGear_SettingClutch: bool,
    pub NoNeu_CloseClutch_Releasing: bool,
    pub NoNeu_CloseClutch_Setting: bool,
    pub Error_NoNeu_OpenClutch_Releasing: bool,
    pub Error_NoNeu_Release_Clutch: bool,
    pub Error_NoNeu_Release_NoClutch: bool,
    pub Error_NoNeu_OpenClutch_Setting: bool,
    pub Error_NoNeu_SetGear_NoClutch: bool,
    pub Error_NoNeu_SetGear_ReleasingClutch: bool,
    pub Error_NoNeu_SetGear_SettingClutch: bool,
    pub Error_NoNeu_CloseClutch_Releasing: bool,
    pub Error_NoNeu_CloseClutch_Setting: bool,
    pub NoNeu_ZeroTorqueT: u32,
    pub NoNeu_Release_NoClutchT: u32,
    pub NoNeu_OpenClutch_ReleasingT: u32,
    pub NoNeu_Release_ClutchT: u32,
    pub NoNeu_SetGear_ReleasingClutchT: u32,
    pub NoNeu_SetGear_SettingClutchT: u32,
    pub NoNeu_SyncSpeedT: u32,
    pub NoNeu_OpenClutch_SettingT: u32,
    pub Engine_SyncSpeed: bool,
    pub Engine_WaitForSyncClutch: bool,
    pub Engine_ZeroTorque: bool,
    pub Engine_WaitForZeroClutch: bool,
    pub Clutch_Open: bool,
    pub Error_Clutch_Open: bool,
    pub Clutch_Close: bool,
    pub Error_Clutch_Close: bool,
    pub Gear_Release: bool,
    pub Error_Gear_Release: bool,
    pub Gear_Set: bool,
    pub Error_Gear_Set: bool,
    pub FromNeu_RequestOpenClutch: bool,
    pub ToNeu_RequestOpenClutch: bool,
    pub NoNeu_RequestOpenClutch_Releasing: bool,
    pub NoNeu_RequestOpenClutch_Setting: bool,
    pub FromNeu_RequestOpenClutchT: u32,
    pub ToNeu_RequestOpenClutchT: u32,
    pub NoNeu_RequestOpenClutch_ReleasingT: u32,
    pub NoNeu_RequestOpenClutch_SettingT: u32,
    pub Engine_Request_SyncSpeed: bool,
    pub Engine_Request_ZeroTorque: bool,
    pub Clutch_Request_Open: bool,
    pub Clutch_Request_Close: bool,
    pub Gear_Request_Release: bool,
    pub Gear_Request_Set: bool,
    pub Engine_Request_SyncSpeedT: u32,
    pub Engine_Request_ZeroTorqueT: u32,
    pub Clutch_Request_OpenT: u32,
    pub Clutch_Request_CloseT: u32,
    pub Gear_Request_ReleaseT: u32,
    pub Gear_Request_SetT: u32,
    pub Engine_SyncSpeedT: u32,
    pub Engine_ZeroTorqueT: u32,
    pub Clutch_OpenT: u32,
    pub Clutch_CloseT: u32,
    pub Gear_ReleaseT: u32,
    pub Gear_SetT: u32,
}

// What an event would do: whether its guards on flags hold, the number that its other guards refuse with or 0, the milliseconds by which
// its guard on times fails or 0, and the variables after its actions. The contract of each event's function gives all four, those of an
// event that is not enabled too: the definitions of specs/ are in these fields, Events.antt's and Answers.antt's.
#[derive(Clone, Copy)]
pub struct Event {
    pub enabled: bool,
    pub number: u8,
    pub excess: u64,
    pub after: Variables,
}

// A guard of Tick_Tock: where these flags stand so, the time after the tick is at most since + limit.
#[derive(Clone, Copy)]
pub struct Guard {
    pub flags: bool,
    pub since: u32,
    pub limit: u16,
}

// 0 and the variables after a step, or the number that refuses it and the variables that were given; the rule is 0 except with 4, the
// excess except with 9 to 13. The numbers are document 01's: munasirel_m9_advance hands them to C.
#[repr(C)]
#[derive(Clone, Copy)]
pub struct Moved {
    pub number: u8,
    pub rule: u8,
    pub excess: u64,
    pub variables: Variables,
}

impl Variables {
    // INITIALISATION.
    pub fn initialisation() -> Variables
        ensures { result ≡ initialisation }
    {
        Variables {
            isNeu: true,
            ..Variables::default()
        }
    }

    // An error flag of the controller is up.
    pub fn erred(&self) -> bool
        ensures { result ≡ erred self.now }
    {
        self.Error_FromNeu_OpenClutch
            | self.Error_FromNeu_SetGear_NoClutch
            | self.Error_FromNeu_SetGear_Clutch
            | self.Error_FromNeu_CloseClutch
            | self.Error_ToNeu_OpenClutch
            | self.Error_ToNeu_Release_NoClutch
            | self.Error_ToNeu_Release_Clutch
            | self.Error_ToNeu_CloseClutch
            | self.Error_NoNeu_OpenClutch_Releasing
            | self.Error_NoNeu_Release_Clutch
            | self.Error_NoNeu_Release_NoClutch
            | self.Error_NoNeu_OpenClutch_Setting
            | self.Error_NoNeu_SetGear_NoClutch
            | self.Error_NoNeu_SetGear_ReleasingClutch
            | self.Error_NoNeu_SetGear_SettingClutch
            | self.Error_NoNeu_CloseClutch_Releasing
            | self.Error_NoNeu_CloseClutch_Setting
    }
}

// The numbers 8, 9 and 10 below are what an event's `number` is by the definitions of specs/. A time, the time that it runs from and the
// limit stand apart, as in these guards: the first two are variables, and the last an entry of the table.

// The number of a guard that isNeu stands so: 8 where it does not.
pub fn on_side(holds: bool) -> u8
    ensures { result ≡ cond holds 0 8 }
{
    if holds { 0 } else { 8 }
}

// The number of a guard time ≤ since + ex: 10 where it does not hold.
pub fn late(time: u32, since: u32, ex: u16) -> u8
    ensures { result ≡ cond (leb time (since + ex)) 0 10 }
{
    if times::is_late(time, since, ex) {
        10
    } else {
        0
    }
}

// The number of a guard time ≥ since + de: 9 where it does not hold.
pub fn early(time: u32, since: u32, de: u16) -> u8
    ensures { result ≡ cond (leb (since + de) time) 0 9 }
{
    if times::is_early(time, since, de) {
        9
    } else {
        0
    }
}

// The milliseconds by which a guard time ≤ since + ex fails.
pub fn late_by(time: u32, since: u32, ex: u16) -> u64
    ensures { result ≡ time - (since + ex) }
{
    times::beyond(time as u64, times::bound(since, ex))
}

// The milliseconds by which a guard time ≥ since + de fails.
pub fn early_by(time: u32, since: u32, de: u16) -> u64
    ensures { result ≡ (since + de) - time }
{
    times::beyond(times::bound(since, de), time as u64)
}

impl Event {
    // An event whose guards are all on flags.
    pub fn free(enabled: bool, after: Variables) -> Event
        ensures { result ≡ free enabled after }
    {
        Event {
            enabled,
            number: 0,
            excess: 0,
            after,
        }
    }
}

// The first of two events that is enabled, the second where none is.
pub fn or_else(a: Event, b: Event) -> Event
    ensures { result ≡ or_else a b }
{
    if a.enabled { a } else { b }
}

// The first of some events that is enabled, the last where none is: of a list that the caller has. The engine, which knows its events one
// by one, asks them by `or_else`, in nested calls.
pub fn first_of(first: Event, others: &[Event]) -> Event
    ensures { result ≡ first_of first others.now }
{
    others
        .iter()
        .fold(first, |found, event| or_else(found, *event))
}

impl Guard {
    // The milliseconds by which the guard is passed, 0 where it holds, as Ticks.antt's `past` has them.
    pub fn past(&self, now: u64) -> u64
        ensures { result ≡ past_at now self.now }
    {
        if self.flags {
            times::beyond(now, times::bound(self.since, self.limit))
        } else {
            0
        }
    }
}

// The same of a guard behind others, by its parts; or what was found before it.
pub fn past(before: u64, flags: bool, now: u64, since: u32, limit: u16) -> u64
    ensures { result ≡ past_else before (past flags now since limit) }
{
    if before != 0 {
        return before;
    }
    Guard {
        flags,
        since,
        limit,
    }
    .past(now)
}

// The milliseconds by which the first guard is passed that does not hold.
pub fn first_past(guards: &[Guard], now: u64) -> Option<u64>
    ensures { result ≡ find (λ over. not (over == 0)) (map (past_at now) guards.now) }
{
    guards
        .iter()
        .map(|guard| guard.past(now))
        .find(|over| *over != 0)
}

impl Moved {
    // A step that is accepted, and the variables after it.
    pub fn accepted(variables: Variables) -> Moved
        ensures { result ≡ accepted variables }
    {
        Moved {
            number: 0,
            rule: 0,
            excess: 0,
            variables,
        }
    }

    // A step that is refused with this number and this excess, and the variables that were given.
    pub fn refused(number: u8, excess: u64, variables: Variables) -> Moved
        ensures { result ≡ refused number excess variables }
    {
        Moved {
            number,
            rule: 0,
            excess,
            variables,
        }
    }
}
