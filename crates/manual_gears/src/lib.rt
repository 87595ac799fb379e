// Machine m9: scenario 2, gear to gear: a function for each event, with the manual's labels.
// Each takes what its definition takes: the variables and, where a guard is on a time, the table.
#![tactic(auto)]

ghost use Rattle.std.specs.Prelude.{◌≡◌};
ghost use Rattle.manual.specs.GearToGear.{NoNeu_ZeroTorque, NoNeu_RequestOpenClutch_Releasing, NoNeu_OpenClutch_Releasing, Error_NoNeu_OpenClutch_Releasing, NoNeu_Release_NoClutch, Error_NoNeu_Release_NoClutch, NoNeu_Release_Clutch, Error_NoNeu_Release_Clutch, NoNeu_SyncSpeed, NoNeu_RequestOpenClutch_Setting, NoNeu_OpenClutch_Setting, Error_NoNeu_OpenClutch_Setting, NoNeu_SetGear_NoClutch, Error_NoNeu_SetGear_NoClutch, NoNeu_SetGear_ReleasingClutch, Error_NoNeu_SetGear_ReleasingClutch, NoNeu_SetGear_SettingClutch, Error_NoNeu_SetGear_SettingClutch, NoNeu_CloseClutch_Setting, Error_NoNeu_CloseClutch_Setting, NoNeu_CloseClutch_Releasing, Error_NoNeu_CloseClutch_Releasing};

use limits::Table;
use manual::{Event, Variables, early, early_by, late, late_by};

pub fn NoNeu_ZeroTorque(mut v: Variables, table: Table) -> Event
    ensures { result ≡ NoNeu_ZeroTorque table v }
{
    let enabled = v.RequestNoNeu // grd1
        & !v.NoNeu_ZeroTorque // grd2
        & !v.NoNeu_RequestOpenClutch_Releasing // grd3
        & v.Engine_ZeroTorque; // grd5
    let number = late(v.time, v.RequestNoNeuT, table.zero_ex); // grd4
    let excess = late_by(v.time, v.RequestNoNeuT, table.zero_ex); // past grd4
    v.NoNeu_ZeroTorque = true; // act1
    v.NoNeu_ZeroTorqueT = v.time; // act2
    Event {
        enabled,
        number,
        excess,
        after: v,
    }
}

pub fn NoNeu_RequestOpenClutch_Releasing(mut v: Variables, table: Table) -> Event
    ensures { result ≡ NoNeu_RequestOpenClutch_Releasing table v }
{
    let enabled = v.RequestNoNeu // grd1
        & !v.NoNeu_ZeroTorque // grd2
        & !v.NoNeu_RequestOpenClutch_Releasing // grd3
        & v.Engine_WaitForZeroClutch; // 01: the engine waits; not printed
    let number = early(v.time, v.RequestNoNeuT, table.zero_de); // grd4
    let excess = early_by(v.time, v.RequestNoNeuT, table.zero_de); // before grd4
    v.NoNeu_RequestOpenClutch_Releasing = true; // act1
    v.NoNeu_RequestOpenClutch_ReleasingT = v.time; // act2
    Event {
        enabled,
        number,
        excess,
        after: v,
    }
}

pub fn NoNeu_OpenClutch_Releasing(mut v: Variables) -> Event
    ensures { result ≡ NoNeu_OpenClutch_Releasing v }
{
    let enabled = v.NoNeu_RequestOpenClutch_Releasing // grd1; 01: phase 7 is entered by the ask; printed NoNeu_OpenClutch_Releasing
        & !v.NoNeu_OpenClutch_Releasing // grd2
        & !v.Error_NoNeu_OpenClutch_Releasing // grd3
        & v.Clutch_Open; // grd4
    v.NoNeu_OpenClutch_Releasing = true; // act1
    v.NoNeu_OpenClutch_ReleasingT = v.time; // act2
    Event::free(enabled, v)
}

pub fn Error_NoNeu_OpenClutch_Releasing(mut v: Variables) -> Event
    ensures { result ≡ Error_NoNeu_OpenClutch_Releasing v }
{
    let enabled = v.NoNeu_RequestOpenClutch_Releasing // grd1
        & !v.NoNeu_OpenClutch_Releasing // grd2
        & !v.Error_NoNeu_OpenClutch_Releasing // grd3
        & v.Error_Clutch_Open; // 01: the device has failed; not printed
    v.Error_NoNeu_OpenClutch_Releasing = true; // act1
    Event::free(enabled, v)
}

pub fn NoNeu_Release_NoClutch(mut v: Variables) -> Event
    ensures { result ≡ NoNeu_Release_NoClutch v }
{
    let enabled = v.NoNeu_ZeroTorque // grd1
        & !v.NoNeu_Release_NoClutch // grd2
        & !v.Error_NoNeu_Release_NoClutch // grd3
        & v.Gear_Release; // grd4
    v.NoNeu_Release_NoClutch = true; // act1
    v.NoNeu_Release_NoClutchT = v.time; // act2
    v.isNeu = true; // 02: taking a release order makes the box neutral; not printed
    Event::free(enabled, v)
}

pub fn Error_NoNeu_Release_NoClutch(mut v: Variables) -> Event
    ensures { result ≡ Error_NoNeu_Release_NoClutch v }
{
    let enabled = v.NoNeu_ZeroTorque // grd1
        & !v.NoNeu_Release_NoClutch // grd2
        & !v.Error_NoNeu_Release_NoClutch // grd3
        & v.Error_Gear_Release; // 01: the device has failed; not printed
    v.Error_NoNeu_Release_NoClutch = true; // act1
    Event::free(enabled, v)
}

pub fn NoNeu_Release_Clutch(mut v: Variables) -> Event
    ensures { result ≡ NoNeu_Release_Clutch v }
{
    let enabled = v.NoNeu_OpenClutch_Releasing // grd1
        & !v.NoNeu_Release_Clutch // grd2
        & !v.Error_NoNeu_Release_Clutch // grd3
        & v.Gear_Release; // grd4
    v.NoNeu_Release_Clutch = true; // act1
    v.NoNeu_Release_ClutchT = v.time; // act2
    v.isNeu = true; // 02: taking a release order makes the box neutral; not printed
    Event::free(enabled, v)
}

pub fn Error_NoNeu_Release_Clutch(mut v: Variables) -> Event
    ensures { result ≡ Error_NoNeu_Release_Clutch v }
{
    let enabled = v.NoNeu_OpenClutch_Releasing // grd1
        & !v.NoNeu_Release_Clutch // grd2
        & !v.Error_NoNeu_Release_Clutch // grd3
        & v.Error_Gear_Release; // 01: the device has failed; not printed
    v.Error_NoNeu_Release_Clutch = true; // act1
    Event::free(enabled, v)
}

pub fn NoNeu_SyncSpeed(mut v: Variables, table: Table) -> Event
    ensures { result ≡ NoNeu_SyncSpeed table v }
{
    let enabled = v.NoNeu_Release_NoClutch // grd1
        & !v.NoNeu_SyncSpeed // grd2
        & !v.NoNeu_RequestOpenClutch_Setting // grd3
        & v.Engine_SyncSpeed; // grd4
    let number = late(v.time, v.NoNeu_Release_NoClutchT, table.sync_ex); // grd5
    let excess = late_by(v.time, v.NoNeu_Release_NoClutchT, table.sync_ex); // past grd5
    v.NoNeu_SyncSpeed = true; // act1
    v.NoNeu_SyncSpeedT = v.time; // act2
    Event {
        enabled,
        number,
        excess,
        after: v,
    }
}

pub fn NoNeu_RequestOpenClutch_Setting(mut v: Variables, table: Table) -> Event
    ensures { result ≡ NoNeu_RequestOpenClutch_Setting table v }
{
    let enabled = v.NoNeu_Release_NoClutch // grd1
        & !v.NoNeu_SyncSpeed // grd2
        & !v.NoNeu_RequestOpenClutch_Setting // grd3
        & v.Engine_WaitForSyncClutch; // 01: the engine waits; not printed
    let number = early(v.time, v.NoNeu_Release_NoClutchT, table.sync_de); // grd4
    let excess = early_by(v.time, v.NoNeu_Release_NoClutchT, table.sync_de); // before grd4
    v.NoNeu_RequestOpenClutch_Setting = true; // act1
    v.NoNeu_RequestOpenClutch_SettingT = v.time; // act2
    Event {
        enabled,
        number,
        excess,
        after: v,
    }
}

pub fn NoNeu_OpenClutch_Setting(mut v: Variables) -> Event
    ensures { result ≡ NoNeu_OpenClutch_Setting v }
{
    let enabled = v.NoNeu_RequestOpenClutch_Setting // grd1
        & !v.Error_NoNeu_OpenClutch_Setting // grd2
        & !v.NoNeu_OpenClutch_Setting // grd3
        & v.Clutch_Open; // grd4
    v.NoNeu_OpenClutch_Setting = true; // act1
    v.NoNeu_OpenClutch_SettingT = v.time; // act2
    Event::free(enabled, v)
}

pub fn Error_NoNeu_OpenClutch_Setting(mut v: Variables) -> Event
    ensures { result ≡ Error_NoNeu_OpenClutch_Setting v }
{
    let enabled = v.NoNeu_RequestOpenClutch_Setting // grd1
        & !v.Error_NoNeu_OpenClutch_Setting // grd2
        & !v.NoNeu_OpenClutch_Setting // grd3
        & v.Error_Clutch_Open; // 01: the device has failed; not printed
    v.Error_NoNeu_OpenClutch_Setting = true; // act1
    Event::free(enabled, v)
}

pub fn NoNeu_SetGear_NoClutch(mut v: Variables) -> Event
    ensures { result ≡ NoNeu_SetGear_NoClutch v }
{
    let enabled = v.NoNeu_SyncSpeed // grd1
        & !v.Error_NoNeu_SetGear_NoClutch // grd2
        & !v.NoNeu_SetGear_NoClutch // grd3
        & v.Gear_Set; // grd4
    v.NoNeu_SetGear_NoClutch = true; // act1
    v.isNeu = false; // 02: taking a set order makes the box in gear; not printed
    Event::free(enabled, v)
}

pub fn Error_NoNeu_SetGear_NoClutch(mut v: Variables) -> Event
    ensures { result ≡ Error_NoNeu_SetGear_NoClutch v }
{
    let enabled = v.NoNeu_SyncSpeed // grd1
        & !v.Error_NoNeu_SetGear_NoClutch // grd2
        & !v.NoNeu_SetGear_NoClutch // grd3
        & v.Error_Gear_Set; // 01: the device has failed; not printed
    v.Error_NoNeu_SetGear_NoClutch = true; // act1
    Event::free(enabled, v)
}

pub fn NoNeu_SetGear_ReleasingClutch(mut v: Variables) -> Event
    ensures { result ≡ NoNeu_SetGear_ReleasingClutch v }
{
    let enabled = v.NoNeu_Release_Clutch // grd1
        & !v.Error_NoNeu_SetGear_ReleasingClutch // grd2
        & !v.NoNeu_SetGear_ReleasingClutch // grd3
        & v.Gear_Set; // grd4
    v.NoNeu_SetGear_ReleasingClutch = true; // act1
    v.NoNeu_SetGear_ReleasingClutchT = v.time; // act2
    v.isNeu = false; // 02: taking a set order makes the box in gear; not printed
    Event::free(enabled, v)
}

pub fn Error_NoNeu_SetGear_ReleasingClutch(mut v: Variables) -> Event
    ensures { result ≡ Error_NoNeu_SetGear_ReleasingClutch v }
{
    let enabled = v.NoNeu_Release_Clutch // grd1
        & !v.Error_NoNeu_SetGear_ReleasingClutch // grd2
        & !v.NoNeu_SetGear_ReleasingClutch // grd3
        & v.Error_Gear_Set; // 01: the device has failed; not printed
    v.Error_NoNeu_SetGear_ReleasingClutch = true; // act1
    Event::free(enabled, v)
}

pub fn NoNeu_SetGear_SettingClutch(mut v: Variables) -> Event
    ensures { result ≡ NoNeu_SetGear_SettingClutch v }
{
    let enabled = v.NoNeu_OpenClutch_Setting // grd1
        & !v.Error_NoNeu_SetGear_SettingClutch // grd2
        & !v.NoNeu_SetGear_SettingClutch // grd3
        & v.Gear_Set; // grd4
    v.NoNeu_SetGear_SettingClutch = true; // act1
    v.NoNeu_SetGear_SettingClutchT = v.time; // act2
    v.isNeu = false; // 02: taking a set order makes the box in gear; not printed
    Event::free(enabled, v)
}

pub fn Error_NoNeu_SetGear_SettingClutch(mut v: Variables) -> Event
    ensures { result ≡ Error_NoNeu_SetGear_SettingClutch v }
{
    let enabled = v.NoNeu_OpenClutch_Setting // grd1
        & !v.Error_NoNeu_SetGear_SettingClutch // grd2
        & !v.NoNeu_SetGear_SettingClutch // grd3
        & v.Error_Gear_Set; // 01: the device has failed; not printed
    v.Error_NoNeu_SetGear_SettingClutch = true; // act1
    Event::free(enabled, v)
}

pub fn NoNeu_CloseClutch_Setting(mut v: Variables) -> Event
    ensures { result ≡ NoNeu_CloseClutch_Setting v }
{
    let enabled = v.NoNeu_SetGear_SettingClutch // grd1
        & !v.Error_NoNeu_CloseClutch_Setting // grd2
        & !v.NoNeu_CloseClutch_Setting // grd3
        & v.Clutch_Close; // grd4
    v.NoNeu_CloseClutch_Setting = true; // act1
    Event::free(enabled, v)
}

pub fn Error_NoNeu_CloseClutch_Setting(mut v: Variables) -> Event
    ensures { result ≡ Error_NoNeu_CloseClutch_Setting v }
{
    let enabled = v.NoNeu_SetGear_SettingClutch // grd1
        & !v.Error_NoNeu_CloseClutch_Setting // grd2
        & !v.NoNeu_CloseClutch_Setting // grd3
        & v.Error_Clutch_Close; // 01: the device has failed; not printed
    v.Error_NoNeu_CloseClutch_Setting = true; // act1
    Event::free(enabled, v)
}

pub fn NoNeu_CloseClutch_Releasing(mut v: Variables) -> Event
    ensures { result ≡ NoNeu_CloseClutch_Releasing v }
{
    let enabled = v.NoNeu_SetGear_ReleasingClutch // grd1
        & !v.Error_NoNeu_CloseClutch_Releasing // grd2
        & !v.NoNeu_CloseClutch_Releasing // grd3
        & v.Clutch_Close; // grd4
    v.NoNeu_CloseClutch_Releasing = true; // act1
    Event::free(enabled, v)
}

pub fn Error_NoNeu_CloseClutch_Releasing(mut v: Variables) -> Event
    ensures { result ≡ Error_NoNeu_CloseClutch_Releasing v }
{
    let enabled = v.NoNeu_SetGear_ReleasingClutch // grd1
        & !v.Error_NoNeu_CloseClutch_Releasing // grd2
        & !v.NoNeu_CloseClutch_Releasing // grd3
        & v.Error_Clutch_Close; // 01: the device has failed; not printed
    v.Error_NoNeu_CloseClutch_Releasing = true; // act1
    Event::free(enabled, v)
}
