// Machine m9: Tick_Tock, its guards in the manual's order and under its labels. Each function takes what its definition
// takes: the variables, the table, and the time after the tick.
#![tactic(auto)]

ghost use Rattle.std.specs.Prelude.{◌≡◌, Ok};
ghost use Rattle.manual.specs.Answers.{moved};
ghost use Rattle.manual.specs.Ticks.{passed, first_past, phase_limits, stage_limits};
ghost use Rattle.shift.specs.declared.Step.TheVariants.{Tick};

use limits::Table;
use manual::{Guard, Moved, Variables, first_past};

// grd2 to grd22: the milliseconds by which the first is passed.
fn phase_limits(v: Variables, table: Table, now: u64) -> Option<u64>
    ensures { result ≡ passed (first_past (phase_limits table v now)) }
{
    let guards = [
        // grd2 to grd6: from neutral.
        Guard {
            flags: v.RequestFromNeu & !v.FromNeu_RequestOpenClutch & !v.FromNeu_SyncSpeed, // grd2
            since: v.RequestFromNeuT,
            limit: table.sync_dl,
        },
        Guard {
            flags: v.FromNeu_RequestOpenClutch
                & !v.FromNeu_OpenClutch
                & !v.Error_FromNeu_OpenClutch, // grd3
            since: v.FromNeu_RequestOpenClutchT,
            limit: table.open_clutch_dl,
        },
        Guard {
            flags: v.FromNeu_OpenClutch
                & !v.FromNeu_SetGear_Clutch
                & !v.Error_FromNeu_SetGear_Clutch, // grd4
            since: v.FromNeu_OpenClutchT,
            limit: table.set_gear_dl,
        },
        Guard {
            flags: v.FromNeu_SyncSpeed
                & !v.FromNeu_SetGear_NoClutch
                & !v.Error_FromNeu_SetGear_NoClutch, // grd5
            since: v.FromNeu_SyncSpeedT,
            limit: table.set_gear_dl,
        },
        Guard {
            flags: v.FromNeu_SetGear_Clutch & !v.FromNeu_CloseClutch & !v.Error_FromNeu_CloseClutch, // grd6
            since: v.FromNeu_SetGear_ClutchT,
            limit: table.close_clutch_dl,
        },

        // grd7 to grd11: to neutral.
        Guard {
            flags: v.RequestToNeu & !v.ToNeu_RequestOpenClutch & !v.ToNeu_ZeroTorque, // grd7
            since: v.RequestToNeuT,
            limit: table.zero_dl,
        },
        Guard {
            flags: v.ToNeu_RequestOpenClutch & !v.ToNeu_OpenClutch & !v.Error_ToNeu_OpenClutch, // grd8
            since: v.ToNeu_RequestOpenClutchT,
            limit: table.open_clutch_dl,
        },
        Guard {
            flags: v.ToNeu_ZeroTorque & !v.ToNeu_Release_NoClutch & !v.Error_ToNeu_Release_NoClutch, // grd9
            since: v.ToNeu_ZeroTorqueT,
            limit: table.release_dl,
        },
        Guard {
            flags: v.ToNeu_OpenClutch & !v.ToNeu_Release_Clutch & !v.Error_ToNeu_Release_Clutch, // grd10
            since: v.ToNeu_OpenClutchT,
            limit: table.release_dl,
        },
        Guard {
            flags: v.ToNeu_Release_Clutch & !v.ToNeu_CloseClutch & !v.Error_ToNeu_CloseClutch, // grd11
            since: v.ToNeu_Release_ClutchT,
            limit: table.close_clutch_dl,
        },

        // grd12 to grd22: gear to gear.
        Guard {
            flags: v.RequestNoNeu & !v.NoNeu_ZeroTorque & !v.NoNeu_RequestOpenClutch_Releasing, // grd12
            since: v.RequestNoNeuT,
            limit: table.zero_dl,
        },
        Guard {
            flags: v.NoNeu_RequestOpenClutch_Releasing
                & !v.NoNeu_OpenClutch_Releasing
                & !v.Error_NoNeu_OpenClutch_Releasing, // grd13
            since: v.NoNeu_RequestOpenClutch_ReleasingT,
            limit: table.open_clutch_dl,
        },
        Guard {
            flags: v.NoNeu_ZeroTorque & !v.NoNeu_Release_NoClutch & !v.Error_NoNeu_Release_NoClutch, // grd14
            since: v.NoNeu_ZeroTorqueT,
            limit: table.release_dl,
        },
        Guard {
            flags: v.NoNeu_Release_NoClutch
                & !v.NoNeu_SyncSpeed
                & !v.NoNeu_RequestOpenClutch_Setting, // grd15
            since: v.NoNeu_Release_NoClutchT,
            limit: table.sync_dl,
        },
        Guard {
            flags: v.NoNeu_RequestOpenClutch_Setting
                & !v.NoNeu_OpenClutch_Setting
                & !v.Error_NoNeu_OpenClutch_Setting, // grd16
            since: v.NoNeu_RequestOpenClutch_SettingT,
            limit: table.open_clutch_dl,
        },
        Guard {
            flags: v.NoNeu_SyncSpeed & !v.NoNeu_SetGear_NoClutch & !v.Error_NoNeu_SetGear_NoClutch, // grd17
            since: v.NoNeu_SyncSpeedT,
            limit: table.set_gear_dl,
        },
        Guard {
            flags: v.NoNeu_OpenClutch_Setting
                & !v.NoNeu_SetGear_SettingClutch
                & !v.Error_NoNeu_SetGear_SettingClutch, // grd18
            since: v.NoNeu_OpenClutch_SettingT,
            limit: table.set_gear_dl,
        },
        Guard {
            flags: v.NoNeu_SetGear_SettingClutch
                & !v.NoNeu_CloseClutch_Setting
                & !v.Error_NoNeu_CloseClutch_Setting, // grd19
            since: v.NoNeu_SetGear_SettingClutchT,
            limit: table.close_clutch_dl,
        },
        Guard {
            flags: v.NoNeu_OpenClutch_Releasing
                & !v.NoNeu_Release_Clutch
                & !v.Error_NoNeu_Release_Clutch, // grd20
            since: v.NoNeu_OpenClutch_ReleasingT,
            limit: table.release_dl,
        },
        Guard {
            flags: v.NoNeu_Release_Clutch
                & !v.NoNeu_SetGear_ReleasingClutch
                & !v.Error_NoNeu_SetGear_ReleasingClutch, // grd21
            since: v.NoNeu_Release_ClutchT,
            limit: table.set_gear_dl,
        },
        Guard {
            flags: v.NoNeu_SetGear_ReleasingClutch
                & !v.NoNeu_CloseClutch_Releasing
                & !v.Error_NoNeu_CloseClutch_Releasing, // grd22
            since: v.NoNeu_SetGear_ReleasingClutchT,
            limit: table.close_clutch_dl,
        },
    ];
    first_past(&guards, now)
}

// grd23 to grd55: the milliseconds by which the first is passed.
fn stage_limits(v: Variables, table: Table, now: u64) -> Option<u64>
    ensures { result ≡ passed (first_past (stage_limits table v now)) }
{
    let guards = [
        // grd23 to grd28: the channel to and from the engine.
        Guard {
            flags: v.RequestFromNeu & !v.Engine_Request_SyncSpeed, // grd23
            since: v.RequestFromNeuT,
            limit: table.channel_dl,
        },
        Guard {
            flags: v.NoNeu_Release_NoClutch & !v.Engine_Request_SyncSpeed, // grd24
            since: v.NoNeu_Release_NoClutchT,
            limit: table.channel_dl,
        },
        Guard {
            flags: v.RequestToNeu & !v.Engine_Request_ZeroTorque, // grd25
            since: v.RequestToNeuT,
            limit: table.channel_dl,
        },
        Guard {
            flags: v.RequestNoNeu & !v.Engine_Request_ZeroTorque, // grd26
            since: v.RequestNoNeuT,
            limit: table.channel_dl,
        },
        Guard {
            flags: v.Engine_ZeroTorque & !v.ToNeu_ZeroTorque & !v.NoNeu_ZeroTorque, // grd27
            since: v.Engine_ZeroTorqueT,
            limit: table.channel_dl,
        },
        Guard {
            flags: v.Engine_SyncSpeed & !v.FromNeu_SyncSpeed & !v.NoNeu_SyncSpeed, // grd28
            since: v.Engine_SyncSpeedT,
            limit: table.channel_dl,
        },

        // grd29 to grd38: the channel to and from the clutch.
        Guard {
            flags: v.FromNeu_RequestOpenClutch & !v.Clutch_Request_Open, // grd29
            since: v.FromNeu_RequestOpenClutchT,
            limit: table.channel_dl,
        },
        Guard {
            flags: v.ToNeu_RequestOpenClutch & !v.Clutch_Request_Open, // grd30
            since: v.ToNeu_RequestOpenClutchT,
            limit: table.channel_dl,
        },
        Guard {
            flags: v.NoNeu_RequestOpenClutch_Releasing & !v.Clutch_Request_Open, // grd31
            since: v.NoNeu_RequestOpenClutch_ReleasingT,
            limit: table.channel_dl,
        },
        Guard {
            flags: v.NoNeu_RequestOpenClutch_Setting & !v.Clutch_Request_Open, // grd32
            since: v.NoNeu_RequestOpenClutch_SettingT,
            limit: table.channel_dl,
        },
        Guard {
            flags: v.FromNeu_SetGear_Clutch & !v.Clutch_Request_Close, // grd33
            since: v.FromNeu_SetGear_ClutchT,
            limit: table.channel_dl,
        },
        Guard {
            flags: v.NoNeu_SetGear_ReleasingClutch & !v.Clutch_Request_Close, // grd34
            since: v.NoNeu_SetGear_ReleasingClutchT,
            limit: table.channel_dl,
        },
        Guard {
            flags: v.NoNeu_SetGear_SettingClutch & !v.Clutch_Request_Close,
            // grd35; 01: an order runs from its own phase; printed FromNeu_SetGear_ClutchT
            since: v.NoNeu_SetGear_SettingClutchT,
            limit: table.channel_dl,
        },
        Guard {
            flags: v.ToNeu_Release_Clutch & !v.Clutch_Request_Close, // grd36
            since: v.ToNeu_Release_ClutchT,
            limit: table.channel_dl,
        },
        Guard {
            flags: v.Clutch_Open
                & !v.FromNeu_OpenClutch
                & !v.ToNeu_OpenClutch
                & !v.NoNeu_OpenClutch_Releasing
                & !v.NoNeu_OpenClutch_Setting, // grd37
            since: v.Clutch_OpenT,
            limit: table.channel_dl,
        },
        Guard {
            flags: v.Clutch_Close
                & !v.FromNeu_CloseClutch
                & !v.ToNeu_CloseClutch
                & !v.NoNeu_CloseClutch_Releasing
                & !v.NoNeu_CloseClutch_Setting, // grd38
            since: v.Clutch_CloseT,
            limit: table.channel_dl,
        },

        // grd39 to grd49: the channel to and from the gear.
        Guard {
            flags: v.ToNeu_ZeroTorque & !v.Gear_Request_Release, // grd39
            since: v.ToNeu_ZeroTorqueT,
            limit: table.channel_dl,
        },
        Guard {
            flags: v.ToNeu_OpenClutch & !v.Gear_Request_Release, // grd40
            since: v.ToNeu_OpenClutchT,
            limit: table.channel_dl,
        },
        Guard {
            flags: v.NoNeu_ZeroTorque & !v.Gear_Request_Release, // grd41
            since: v.NoNeu_ZeroTorqueT,
            limit: table.channel_dl,
        },
        Guard {
            flags: v.NoNeu_OpenClutch_Releasing & !v.Gear_Request_Release, // grd42
            since: v.NoNeu_OpenClutch_ReleasingT,
            limit: table.channel_dl,
        },
        Guard {
            flags: v.NoNeu_SyncSpeed & !v.Gear_Request_Set, // grd43
            since: v.NoNeu_SyncSpeedT,
            limit: table.channel_dl,
        },
        Guard {
            flags: v.NoNeu_OpenClutch_Setting & !v.Gear_Request_Set, // grd44
            since: v.NoNeu_OpenClutch_SettingT,
            limit: table.channel_dl,
        },
        Guard {
            flags: v.NoNeu_Release_Clutch & !v.Gear_Request_Set, // grd45
            since: v.NoNeu_Release_ClutchT,
            limit: table.channel_dl,
        },
        Guard {
            flags: v.FromNeu_SyncSpeed & !v.Gear_Request_Set, // grd46; 01: until the order is delivered; printed Gear_Set
            since: v.FromNeu_SyncSpeedT,
            limit: table.channel_dl,
        },
        Guard {
            flags: v.FromNeu_OpenClutch & !v.Gear_Request_Set,
            // grd47; 01: phase 4 and until its order is delivered; printed ToNeu_OpenClutch, its time, and Gear_Set
            since: v.FromNeu_OpenClutchT,
            limit: table.channel_dl,
        },
        Guard {
            flags: v.Gear_Release
                & !v.ToNeu_Release_Clutch
                & !v.ToNeu_Release_NoClutch
                & !v.NoNeu_Release_NoClutch
                & !v.NoNeu_Release_Clutch, // grd48
            since: v.Gear_ReleaseT,
            limit: table.channel_dl,
        },
        Guard {
            flags: v.Gear_Set
                & !v.FromNeu_SetGear_Clutch
                & !v.FromNeu_SetGear_NoClutch
                & !v.NoNeu_SetGear_NoClutch
                & !v.NoNeu_SetGear_ReleasingClutch
                & !v.NoNeu_SetGear_SettingClutch, // grd49
            since: v.Gear_SetT,
            limit: table.channel_dl,
        },

        // grd50 to grd55: the devices.
        Guard {
            flags: v.Engine_Request_SyncSpeed & !v.Engine_SyncSpeed & !v.Engine_WaitForSyncClutch, // grd50
            since: v.Engine_Request_SyncSpeedT,
            limit: table.engine_sync_dl,
        },
        Guard {
            flags: v.Engine_Request_ZeroTorque & !v.Engine_ZeroTorque & !v.Engine_WaitForZeroClutch, // grd51
            since: v.Engine_Request_ZeroTorqueT,
            limit: table.engine_zero_dl,
        },
        Guard {
            flags: v.Clutch_Request_Open & !v.Clutch_Open & !v.Error_Clutch_Open, // grd52
            since: v.Clutch_Request_OpenT,
            limit: table.clutch_open_dl,
        },
        Guard {
            flags: v.Clutch_Request_Close & !v.Clutch_Close & !v.Error_Clutch_Close, // grd53
            since: v.Clutch_Request_CloseT,
            limit: table.clutch_close_dl,
        },
        Guard {
            flags: v.Gear_Request_Release & !v.Gear_Release & !v.Error_Gear_Release, // grd54
            since: v.Gear_Request_ReleaseT,
            limit: table.gear_release_dl,
        },
        Guard {
            flags: v.Gear_Request_Set & !v.Gear_Set & !v.Error_Gear_Set, // grd55
            since: v.Gear_Request_SetT,
            limit: table.gear_set_dl,
        },
    ];
    first_past(&guards, now)
}

// A tick: refused by 13 first, then by 12, then by 11.
pub fn Tick_Tock(v: Variables, table: Table, tick: u32) -> Moved
    ensures { result ≡ moved table v (Ok (Tick tick)) }
{
    let now = v.time as u64 + (tick as u64);
    let Some(time) = v.time.checked_add(tick) else {
        return Moved::refused(13, times::beyond(now, 4294967295), v);
    };
    if let Some(over) = stage_limits(v, table, now) {
        return Moved::refused(12, over, v);
    }
    if let Some(over) = phase_limits(v, table, now) {
        return Moved::refused(11, over, v);
    }
    Moved::accepted(Variables { time, ..v }) // act1
}
