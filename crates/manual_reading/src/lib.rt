// What the manual's variables say in our terms. Phases, stages, orders and the box are document 01's numbers here, as the theorems of
// manual_agreement have them: munasirel_m9_reading hands them to C.
#![tactic(auto)]

ghost use Rattle.std.specs.Prelude.{◌≡◌};
ghost use Rattle.manual_reading.specs.Reading.{first_entered, outside, from_neutral, gear_to_gear, to_neutral, by_device, stage_of, box_of, reading};

use manual::Variables;
use phases::{CLOSE, OPEN, RELEASE, SET, SYNC, ZERO_TORQUE, order_of};

// Clock, box, phase and stage; in phases 1 to 21 the times of phase and request, and the stage's where it is sent, working or good;
// 0 for what the variables do not tell.
#[repr(C)]
#[derive(Clone, Copy)]
pub struct Read {
    pub clock: u32,
    pub gear_box: u8,
    pub phase: u8,
    pub phase_time: u32,
    pub stage: u8,
    pub stage_time: u32,
    pub request_time: u32,
}

// A phase by its number, when it was entered, and when its shift was requested.
#[derive(Clone, Copy)]
struct Phase {
    number: u8,
    time: u32,
    request: u32,
}

// A stage by its number, and its time.
#[derive(Clone, Copy)]
struct Stage {
    number: u8,
    time: u32,
}

// A phase by its number, the flags that enter and leave it, its time and its request's.
#[derive(Clone, Copy)]
struct Candidate {
    number: u8,
    entered: bool,
    left: bool,
    time: u32,
    request: u32,
}

// What the flags and times of a device say: its request, that it is good, and that it ended otherwise, with that stage. Flags and times
// stand apart, as in the manual's variables and as the definition stage_by takes them.
#[derive(Clone, Copy)]
struct Device {
    request: bool,
    request_time: u32,
    good: bool,
    good_time: u32,
    ended: bool,
    otherwise: u8,
}

// The first of some phases that was entered and not left.
#[tactic(auto, unfolding(crate::specs::Reading::first_entered))]
fn first_entered(phases: &[Candidate]) -> Option<Candidate>
    ensures { result ≡ first_entered phases.now }
{
    phases.iter().copied().find(|p| p.entered & !p.left)
}

// The phase: 23 by an error flag of the controller, 22 by what FINAL asks for, and else the one that was entered and not left.
fn phase_of(v: Variables) -> Phase
    ensures { result ≡ to_neutral v (gear_to_gear v (from_neutral v (outside v))) }
{
    let phases = [
        Candidate {
            number: 23,
            entered: v.erred(),
            left: false,
            time: 0,
            request: 0,
        },
        Candidate {
            number: 22,
            entered: v.FromNeu_SetGear_NoClutch
                | v.NoNeu_SetGear_NoClutch
                | v.ToNeu_Release_NoClutch
                | v.FromNeu_CloseClutch
                | v.NoNeu_CloseClutch_Setting
                | v.NoNeu_CloseClutch_Releasing
                | v.ToNeu_CloseClutch,
            left: false,
            time: 0,
            request: 0,
        },
        // Phases 1 to 5: from neutral.
        Candidate {
            number: 1,
            entered: v.RequestFromNeu,
            left: v.FromNeu_SyncSpeed | v.FromNeu_RequestOpenClutch,
            time: v.RequestFromNeuT,
            request: v.RequestFromNeuT,
        },
        Candidate {
            number: 2,
            entered: v.FromNeu_RequestOpenClutch,
            left: v.FromNeu_OpenClutch,
            time: v.FromNeu_RequestOpenClutchT,
            request: v.RequestFromNeuT,
        },
        Candidate {
            number: 3,
            entered: v.FromNeu_SyncSpeed,
            left: v.FromNeu_SetGear_NoClutch,
            time: v.FromNeu_SyncSpeedT,
            request: v.RequestFromNeuT,
        },
        Candidate {
            number: 4,
            entered: v.FromNeu_OpenClutch,
            left: v.FromNeu_SetGear_Clutch,
            time: v.FromNeu_OpenClutchT,
            request: v.RequestFromNeuT,
        },
        Candidate {
            number: 5,
            entered: v.FromNeu_SetGear_Clutch,
            left: v.FromNeu_CloseClutch,
            time: v.FromNeu_SetGear_ClutchT,
            request: v.RequestFromNeuT,
        },
        // Phases 6 to 16: gear to gear.
        Candidate {
            number: 6,
            entered: v.RequestNoNeu,
            left: v.NoNeu_ZeroTorque | v.NoNeu_RequestOpenClutch_Releasing,
            time: v.RequestNoNeuT,
            request: v.RequestNoNeuT,
        },
        Candidate {
            number: 7,
            entered: v.NoNeu_RequestOpenClutch_Releasing,
            left: v.NoNeu_OpenClutch_Releasing,
            time: v.NoNeu_RequestOpenClutch_ReleasingT,
            request: v.RequestNoNeuT,
        },
        Candidate {
            number: 8,
            entered: v.NoNeu_ZeroTorque,
            left: v.NoNeu_Release_NoClutch,
            time: v.NoNeu_ZeroTorqueT,
            request: v.RequestNoNeuT,
        },
        Candidate {
            number: 9,
            entered: v.NoNeu_OpenClutch_Releasing,
            left: v.NoNeu_Release_Clutch,
            time: v.NoNeu_OpenClutch_ReleasingT,
            request: v.RequestNoNeuT,
        },
        Candidate {
            number: 10,
            entered: v.NoNeu_Release_NoClutch,
            left: v.NoNeu_SyncSpeed | v.NoNeu_RequestOpenClutch_Setting,
            time: v.NoNeu_Release_NoClutchT,
            request: v.RequestNoNeuT,
        },
        Candidate {
            number: 11,
            entered: v.NoNeu_RequestOpenClutch_Setting,
            left: v.NoNeu_OpenClutch_Setting,
            time: v.NoNeu_RequestOpenClutch_SettingT,
            request: v.RequestNoNeuT,
        },
        Candidate {
            number: 12,
            entered: v.NoNeu_SyncSpeed,
            left: v.NoNeu_SetGear_NoClutch,
            time: v.NoNeu_SyncSpeedT,
            request: v.RequestNoNeuT,
        },
        Candidate {
            number: 13,
            entered: v.NoNeu_OpenClutch_Setting,
            left: v.NoNeu_SetGear_SettingClutch,
            time: v.NoNeu_OpenClutch_SettingT,
            request: v.RequestNoNeuT,
        },
        Candidate {
            number: 14,
            entered: v.NoNeu_Release_Clutch,
            left: v.NoNeu_SetGear_ReleasingClutch,
            time: v.NoNeu_Release_ClutchT,
            request: v.RequestNoNeuT,
        },
        Candidate {
            number: 15,
            entered: v.NoNeu_SetGear_SettingClutch,
            left: v.NoNeu_CloseClutch_Setting,
            time: v.NoNeu_SetGear_SettingClutchT,
            request: v.RequestNoNeuT,
        },
        Candidate {
            number: 16,
            entered: v.NoNeu_SetGear_ReleasingClutch,
            left: v.NoNeu_CloseClutch_Releasing,
            time: v.NoNeu_SetGear_ReleasingClutchT,
            request: v.RequestNoNeuT,
        },
        // Phases 17 to 21: to neutral.
        Candidate {
            number: 17,
            entered: v.RequestToNeu,
            left: v.ToNeu_ZeroTorque | v.ToNeu_RequestOpenClutch,
            time: v.RequestToNeuT,
            request: v.RequestToNeuT,
        },
        Candidate {
            number: 18,
            entered: v.ToNeu_RequestOpenClutch,
            left: v.ToNeu_OpenClutch,
            time: v.ToNeu_RequestOpenClutchT,
            request: v.RequestToNeuT,
        },
        Candidate {
            number: 19,
            entered: v.ToNeu_ZeroTorque,
            left: v.ToNeu_Release_NoClutch,
            time: v.ToNeu_ZeroTorqueT,
            request: v.RequestToNeuT,
        },
        Candidate {
            number: 20,
            entered: v.ToNeu_OpenClutch,
            left: v.ToNeu_Release_Clutch,
            time: v.ToNeu_OpenClutchT,
            request: v.RequestToNeuT,
        },
        Candidate {
            number: 21,
            entered: v.ToNeu_Release_Clutch,
            left: v.ToNeu_CloseClutch,
            time: v.ToNeu_Release_ClutchT,
            request: v.RequestToNeuT,
        },
    ];
    match first_entered(&phases) {
        Some(p) => Phase {
            number: p.number,
            time: p.time,
            request: p.request,
        },
        None => Phase {
            number: 0,
            time: 0,
            request: 0,
        },
    }
}

impl Device {
    // The stage of a phase that was entered at this time.
    fn stage(&self, start: u32) -> Stage
        ensures { result ≡ by_device self.now start }
    {
        if self.ended {
            Stage {
                number: self.otherwise,
                time: 0,
            }
        } else if self.good {
            Stage {
                number: 3,
                time: self.good_time,
            }
        } else if self.request {
            Stage {
                number: 2,
                time: self.request_time,
            }
        } else {
            Stage {
                number: 1,
                time: start,
            }
        }
    }
}

// The stage by the device of an order: an engine ends otherwise by waiting (5), the others by failing (4).
fn stage_of(v: Variables, order: u8, start: u32) -> Stage
    ensures { result ≡ stage_of v order start }
{
    let device = match order {
        SYNC => Device {
            request: v.Engine_Request_SyncSpeed,
            request_time: v.Engine_Request_SyncSpeedT,
            good: v.Engine_SyncSpeed,
            good_time: v.Engine_SyncSpeedT,
            ended: v.Engine_WaitForSyncClutch,
            otherwise: 5,
        },
        ZERO_TORQUE => Device {
            request: v.Engine_Request_ZeroTorque,
            request_time: v.Engine_Request_ZeroTorqueT,
            good: v.Engine_ZeroTorque,
            good_time: v.Engine_ZeroTorqueT,
            ended: v.Engine_WaitForZeroClutch,
            otherwise: 5,
        },
        OPEN => Device {
            request: v.Clutch_Request_Open,
            request_time: v.Clutch_Request_OpenT,
            good: v.Clutch_Open,
            good_time: v.Clutch_OpenT,
            ended: v.Error_Clutch_Open,
            otherwise: 4,
        },
        CLOSE => Device {
            request: v.Clutch_Request_Close,
            request_time: v.Clutch_Request_CloseT,
            good: v.Clutch_Close,
            good_time: v.Clutch_CloseT,
            ended: v.Error_Clutch_Close,
            otherwise: 4,
        },
        SET => Device {
            request: v.Gear_Request_Set,
            request_time: v.Gear_Request_SetT,
            good: v.Gear_Set,
            good_time: v.Gear_SetT,
            ended: v.Error_Gear_Set,
            otherwise: 4,
        },
        RELEASE => Device {
            request: v.Gear_Request_Release,
            request_time: v.Gear_Request_ReleaseT,
            good: v.Gear_Release,
            good_time: v.Gear_ReleaseT,
            ended: v.Error_Gear_Release,
            otherwise: 4,
        },
        _ => {
            return Stage { number: 0, time: 0 };
        }
    };
    device.stage(start)
}

// Neutral or in gear.
fn box_of(isNeu: bool) -> u8
    ensures { result ≡ box_of isNeu }
{
    if isNeu { 0 } else { 1 }
}

// The reading of any variables.
pub fn reading(v: Variables) -> Read
    ensures { result ≡ reading v }
{
    let p = phase_of(v);
    let s = stage_of(v, order_of(p.number), p.time);
    Read {
        clock: v.time,
        gear_box: box_of(v.isNeu),
        phase: p.number,
        phase_time: p.time,
        stage: s.number,
        stage_time: s.time,
        request_time: p.request,
    }
}
