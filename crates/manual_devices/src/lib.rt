// Machine m9: the three requests, engine, clutch and gear, and FINAL: a function for each event, with the manual's labels; and reset.
// Each takes what its definition takes: the variables and, where a guard is on a time, the table.
#![tactic(auto)]

ghost use Rattle.std.specs.Prelude.{◌≡◌};
ghost use Rattle.manual.specs.Requests.{RequestFromNeu, RequestNoNeu, RequestToNeu};
ghost use Rattle.manual.specs.Devices.{Engine_Request_SyncSpeed, Engine_SyncSpeed, Engine_WaitForSyncClutch, Engine_Request_ZeroTorque, Engine_ZeroTorque, Engine_WaitForZeroClutch, Clutch_Request_Open, Clutch_Open, Error_Clutch_Open, Clutch_Request_Close, Clutch_Close, Error_Clutch_Close, Gear_Request_Release, Gear_Release, Error_Gear_Release, Gear_Request_Set, Gear_Set, Error_Gear_Set};
ghost use Rattle.manual.specs.Final.{FINAL};
ghost use Rattle.manual.specs.Reset.{RESET};

use limits::Table;
use manual::{Event, Variables, early, early_by, on_side};

pub fn RequestFromNeu(mut v: Variables) -> Event
    ensures { result ≡ RequestFromNeu v }
{
    let enabled = !v.RequestFromNeu // grd1
        & !v.RequestNoNeu // grd2
        & !v.RequestToNeu; // grd3
    let number = on_side(v.isNeu); // grd4
    v.RequestFromNeu = true; // act1
    v.RequestFromNeuT = v.time; // act2
    Event {
        number,
        ..Event::free(enabled, v)
    }
}

pub fn RequestNoNeu(mut v: Variables) -> Event
    ensures { result ≡ RequestNoNeu v }
{
    let enabled = !v.RequestFromNeu // grd1
        & !v.RequestNoNeu // grd2
        & !v.RequestToNeu; // grd3
    let number = on_side(!v.isNeu); // grd4
    v.RequestNoNeu = true; // act1
    v.RequestNoNeuT = v.time; // act2
    Event {
        number,
        ..Event::free(enabled, v)
    }
}

pub fn RequestToNeu(mut v: Variables) -> Event
    ensures { result ≡ RequestToNeu v }
{
    let enabled = !v.RequestFromNeu // grd1
        & !v.RequestNoNeu // grd2
        & !v.RequestToNeu; // grd3
    let number = on_side(!v.isNeu); // grd4
    v.RequestToNeu = true; // act1
    v.RequestToNeuT = v.time; // act2
    Event {
        number,
        ..Event::free(enabled, v)
    }
}

pub fn Engine_Request_SyncSpeed(mut v: Variables) -> Event
    ensures { result ≡ Engine_Request_SyncSpeed v }
{
    let enabled = (v.RequestFromNeu | v.NoNeu_Release_NoClutch) // grd1
        & !v.Engine_Request_SyncSpeed; // grd2
    v.Engine_Request_SyncSpeed = true; // act1
    v.Engine_Request_SyncSpeedT = v.time; // act2
    Event::free(enabled, v)
}

pub fn Engine_SyncSpeed(mut v: Variables) -> Event
    ensures { result ≡ Engine_SyncSpeed v }
{
    let enabled = v.Engine_Request_SyncSpeed // grd1
        & !v.Engine_SyncSpeed // grd2
        & !v.Engine_WaitForSyncClutch; // grd3
    v.Engine_SyncSpeed = true; // act1
    v.Engine_SyncSpeedT = v.time; // act2
    Event::free(enabled, v)
}

pub fn Engine_WaitForSyncClutch(mut v: Variables) -> Event
    ensures { result ≡ Engine_WaitForSyncClutch v }
{
    let enabled = v.Engine_Request_SyncSpeed // grd1
        & !v.Engine_SyncSpeed // grd2
        & !v.Engine_WaitForSyncClutch; // grd3
    v.Engine_WaitForSyncClutch = true; // act1
    Event::free(enabled, v)
}

pub fn Engine_Request_ZeroTorque(mut v: Variables) -> Event
    ensures { result ≡ Engine_Request_ZeroTorque v }
{
    let enabled = (v.RequestToNeu | v.RequestNoNeu) // grd1
        & !v.Engine_Request_ZeroTorque; // grd2
    v.Engine_Request_ZeroTorque = true; // act1
    v.Engine_Request_ZeroTorqueT = v.time; // act2
    Event::free(enabled, v)
}

pub fn Engine_ZeroTorque(mut v: Variables) -> Event
    ensures { result ≡ Engine_ZeroTorque v }
{
    let enabled = v.Engine_Request_ZeroTorque // grd1
        & !v.Engine_ZeroTorque // grd2
        & !v.Engine_WaitForZeroClutch; // grd3
    v.Engine_ZeroTorque = true; // act1
    v.Engine_ZeroTorqueT = v.time; // act2
    Event::free(enabled, v)
}

pub fn Engine_WaitForZeroClutch(mut v: Variables) -> Event
    ensures { result ≡ Engine_WaitForZeroClutch v }
{
    let enabled = v.Engine_Request_ZeroTorque // grd1
        & !v.Engine_ZeroTorque // grd2
        & !v.Engine_WaitForZeroClutch; // grd3
    v.Engine_WaitForZeroClutch = true; // act1
    Event::free(enabled, v)
}

pub fn Clutch_Request_Open(mut v: Variables) -> Event
    ensures { result ≡ Clutch_Request_Open v }
{
    let enabled = (v.FromNeu_RequestOpenClutch
        | v.ToNeu_RequestOpenClutch
        | v.NoNeu_RequestOpenClutch_Releasing
        | v.NoNeu_RequestOpenClutch_Setting) // grd1
        & !v.Clutch_Request_Open; // grd2
    v.Clutch_Request_Open = true; // act1
    v.Clutch_Request_OpenT = v.time; // act2
    Event::free(enabled, v)
}

pub fn Clutch_Open(mut v: Variables, table: Table) -> Event
    ensures { result ≡ Clutch_Open table v }
{
    let enabled = v.Clutch_Request_Open // grd1
        & !v.Clutch_Open // grd2
        & !v.Error_Clutch_Open; // grd3
    let number = early(v.time, v.Clutch_Request_OpenT, table.clutch_open_de); // 02: request 6, the delay from delivery; not printed
    let excess = early_by(v.time, v.Clutch_Request_OpenT, table.clutch_open_de); // before 02
    v.Clutch_Open = true; // act1
    v.Clutch_OpenT = v.time; // act2
    Event {
        enabled,
        number,
        excess,
        after: v,
    }
}

pub fn Error_Clutch_Open(mut v: Variables, table: Table) -> Event
    ensures { result ≡ Error_Clutch_Open table v }
{
    let enabled = v.Clutch_Request_Open // grd1
        & !v.Clutch_Open // grd2
        & !v.Error_Clutch_Open; // grd3
    let number = early(v.time, v.Clutch_Request_OpenT, table.error_clutch_open_de); // 02: request 6, the delay from delivery; not printed
    let excess = early_by(v.time, v.Clutch_Request_OpenT, table.error_clutch_open_de); // before 02
    v.Error_Clutch_Open = true; // act1
    Event {
        enabled,
        number,
        excess,
        after: v,
    }
}

pub fn Clutch_Request_Close(mut v: Variables) -> Event
    ensures { result ≡ Clutch_Request_Close v }
{
    let enabled = (v.FromNeu_SetGear_Clutch
        | v.ToNeu_Release_Clutch
        | v.NoNeu_SetGear_ReleasingClutch
        | v.NoNeu_SetGear_SettingClutch) // grd1
        & !v.Clutch_Request_Close; // grd2
    v.Clutch_Request_Close = true; // act1
    v.Clutch_Request_CloseT = v.time; // act2
    Event::free(enabled, v)
}

pub fn Clutch_Close(mut v: Variables, table: Table) -> Event
    ensures { result ≡ Clutch_Close table v }
{
    let enabled = v.Clutch_Request_Close // grd1
        & !v.Clutch_Close // grd2
        & !v.Error_Clutch_Close; // grd3
    let number = early(v.time, v.Clutch_Request_CloseT, table.clutch_close_de); // 02: request 6, the delay from delivery; not printed
    let excess = early_by(v.time, v.Clutch_Request_CloseT, table.clutch_close_de); // before 02
    v.Clutch_Close = true; // act1
    v.Clutch_CloseT = v.time; // act2
    Event {
        enabled,
        number,
        excess,
        after: v,
    }
}

pub fn Error_Clutch_Close(mut v: Variables, table: Table) -> Event
    ensures { result ≡ Error_Clutch_Close table v }
{
    let enabled = v.Clutch_Request_Close // grd1
        & !v.Clutch_Close // grd2
        & !v.Error_Clutch_Close; // grd3
    let number = early(v.time, v.Clutch_Request_CloseT, table.error_clutch_close_de); // 02: request 6, the delay from delivery; not printed
    let excess = early_by(v.time, v.Clutch_Request_CloseT, table.error_clutch_close_de); // before 02
    v.Error_Clutch_Close = true; // act1
    Event {
        enabled,
        number,
        excess,
        after: v,
    }
}

pub fn Gear_Request_Release(mut v: Variables) -> Event
    ensures { result ≡ Gear_Request_Release v }
{
    let enabled = (v.ToNeu_ZeroTorque
        | v.ToNeu_OpenClutch
        | v.NoNeu_ZeroTorque
        | v.NoNeu_OpenClutch_Releasing) // grd1
        & !v.Gear_Request_Release; // grd2
    v.Gear_Request_Release = true; // act1
    v.Gear_Request_ReleaseT = v.time; // act2
    Event::free(enabled, v)
}

pub fn Gear_Release(mut v: Variables) -> Event
    ensures { result ≡ Gear_Release v }
{
    let enabled = v.Gear_Request_Release // grd1
        & !v.Gear_Release // grd2
        & !v.Error_Gear_Release; // grd3
    v.Gear_Release = true; // act1
    v.Gear_ReleaseT = v.time; // act2
    Event::free(enabled, v)
}

pub fn Error_Gear_Release(mut v: Variables) -> Event
    ensures { result ≡ Error_Gear_Release v }
{
    let enabled = v.Gear_Request_Release // grd1
        & !v.Gear_Release // grd2
        & !v.Error_Gear_Release; // grd3
    v.Error_Gear_Release = true; // act1
    Event::free(enabled, v)
}

pub fn Gear_Request_Set(mut v: Variables) -> Event
    ensures { result ≡ Gear_Request_Set v }
{
    let enabled = (v.FromNeu_SyncSpeed
        | v.FromNeu_OpenClutch
        | v.NoNeu_Release_Clutch
        | v.NoNeu_SyncSpeed
        | v.NoNeu_OpenClutch_Setting) // grd1
        & !v.Gear_Request_Set; // grd2
    v.Gear_Request_Set = true; // act1
    v.Gear_Request_SetT = v.time; // act2
    Event::free(enabled, v)
}

pub fn Gear_Set(mut v: Variables) -> Event
    ensures { result ≡ Gear_Set v }
{
    let enabled = v.Gear_Request_Set // grd1
        & !v.Gear_Set // grd2
        & !v.Error_Gear_Set; // grd3
    v.Gear_Set = true; // act1
    v.Gear_SetT = v.time; // act2
    Event::free(enabled, v)
}

pub fn Error_Gear_Set(mut v: Variables) -> Event
    ensures { result ≡ Error_Gear_Set v }
{
    let enabled = v.Gear_Request_Set // grd1
        & !v.Gear_Set // grd2
        & !v.Error_Gear_Set; // grd3
    v.Error_Gear_Set = true; // act1
    Event::free(enabled, v)
}

// Each of its actions stands under its label, which second/manual reads.
pub fn FINAL(mut v: Variables) -> Event
    ensures { result ≡ FINAL v }
{
    let enabled = v.FromNeu_SetGear_NoClutch
        | v.NoNeu_SetGear_NoClutch
        | v.ToNeu_Release_NoClutch
        | v.FromNeu_CloseClutch
        | v.NoNeu_CloseClutch_Setting
        | v.NoNeu_CloseClutch_Releasing
        | v.ToNeu_CloseClutch; // grd1
    v.RequestFromNeu = false; // act1
    v.RequestNoNeu = false; // act2
    v.RequestToNeu = false; // act3
    v.FromNeu_SyncSpeed = false; // act4
    v.FromNeu_OpenClutch = false; // act5
    v.FromNeu_SetGear_NoClutch = false; // act6
    v.FromNeu_SetGear_Clutch = false; // act7
    v.FromNeu_CloseClutch = false; // act8
    v.ToNeu_Release_NoClutch = false; // act9
    v.ToNeu_CloseClutch = false; // act10
    v.ToNeu_ZeroTorque = false; // act11
    v.ToNeu_OpenClutch = false; // act12
    v.ToNeu_Release_Clutch = false; // act13
    v.NoNeu_ZeroTorque = false; // act14
    v.NoNeu_OpenClutch_Releasing = false; // act15
    v.NoNeu_Release_NoClutch = false; // act16
    v.NoNeu_Release_Clutch = false; // act17
    v.NoNeu_SyncSpeed = false; // act18
    v.NoNeu_OpenClutch_Setting = false; // act19
    v.NoNeu_SetGear_NoClutch = false; // act20
    v.NoNeu_SetGear_ReleasingClutch = false; // act21
    v.NoNeu_SetGear_SettingClutch = false; // act22
    v.NoNeu_CloseClutch_Setting = false; // act23
    v.NoNeu_CloseClutch_Releasing = false; // act24
    v.Engine_SyncSpeed = false; // act25
    v.Engine_WaitForSyncClutch = false; // act26
    v.Engine_ZeroTorque = false; // act27
    v.Engine_WaitForZeroClutch = false; // act28
    v.Clutch_Open = false; // act29
    v.Clutch_Close = false; // act30
    v.Gear_Release = false; // act31
    v.Gear_Set = false; // act32
    v.FromNeu_RequestOpenClutch = false; // act33
    v.ToNeu_RequestOpenClutch = false; // act34
    v.NoNeu_RequestOpenClutch_Releasing = false; // act35
    v.NoNeu_RequestOpenClutch_Setting = false; // act36
    v.Engine_Request_SyncSpeed = false; // act37
    v.Engine_Request_ZeroTorque = false; // act38
    v.Clutch_Request_Open = false; // act39
    v.Clutch_Request_Close = false; // act40
    v.Gear_Request_Release = false; // act41
    v.Gear_Request_Set = false; // act42
    Event::free(enabled, v)
}

// Not the manual's: document 02's reset. It lowers every flag; isNeu and the times stay.
pub fn RESET(v: Variables) -> Event
    ensures { result ≡ RESET v }
{
    let after = Variables {
        isNeu: v.isNeu,
        time: v.time,
        RequestFromNeuT: v.RequestFromNeuT,
        RequestNoNeuT: v.RequestNoNeuT,
        RequestToNeuT: v.RequestToNeuT,
        FromNeu_OpenClutchT: v.FromNeu_OpenClutchT,
        FromNeu_SyncSpeedT: v.FromNeu_SyncSpeedT,
        FromNeu_SetGear_ClutchT: v.FromNeu_SetGear_ClutchT,
        ToNeu_ZeroTorqueT: v.ToNeu_ZeroTorqueT,
        ToNeu_OpenClutchT: v.ToNeu_OpenClutchT,
        ToNeu_Release_ClutchT: v.ToNeu_Release_ClutchT,
        NoNeu_ZeroTorqueT: v.NoNeu_ZeroTorqueT,
        NoNeu_Release_NoClutchT: v.NoNeu_Release_NoClutchT,
        NoNeu_OpenClutch_ReleasingT: v.NoNeu_OpenClutch_ReleasingT,
        NoNeu_Release_ClutchT: v.NoNeu_Release_ClutchT,
        NoNeu_SetGear_ReleasingClutchT: v.NoNeu_SetGear_ReleasingClutchT,
        NoNeu_SetGear_SettingClutchT: v.NoNeu_SetGear_SettingClutchT,
        NoNeu_SyncSpeedT: v.NoNeu_SyncSpeedT,
        NoNeu_OpenClutch_SettingT: v.NoNeu_OpenClutch_SettingT,
        FromNeu_RequestOpenClutchT: v.FromNeu_RequestOpenClutchT,
        ToNeu_RequestOpenClutchT: v.ToNeu_RequestOpenClutchT,
        NoNeu_RequestOpenClutch_ReleasingT: v.NoNeu_RequestOpenClutch_ReleasingT,
        NoNeu_RequestOpenClutch_SettingT: v.NoNeu_RequestOpenClutch_SettingT,
        Engine_Request_SyncSpeedT: v.Engine_Request_SyncSpeedT,
        Engine_Request_ZeroTorqueT: v.Engine_Request_ZeroTorqueT,
        Clutch_Request_OpenT: v.Clutch_Request_OpenT,
        Clutch_Request_CloseT: v.Clutch_Request_CloseT,
        Gear_Request_ReleaseT: v.Gear_Request_ReleaseT,
        Gear_Request_SetT: v.Gear_Request_SetT,
        Engine_SyncSpeedT: v.Engine_SyncSpeedT,
        Engine_ZeroTorqueT: v.Engine_ZeroTorqueT,
        Clutch_OpenT: v.Clutch_OpenT,
        Clutch_CloseT: v.Clutch_CloseT,
        Gear_ReleaseT: v.Gear_ReleaseT,
        Gear_SetT: v.Gear_SetT,
        ..Variables::default()
    };
    Event::free(v.erred(), after)
}
