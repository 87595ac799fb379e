// Machine m9: scenarios 1 and 3, from neutral and to neutral: a function for each event, with the manual's labels.
// Each takes what its definition takes: the variables and, where a guard is on a time, the table.
#![tactic(auto)]

ghost use Rattle.std.specs.Prelude.{◌≡◌};
ghost use Rattle.manual.specs.FromNeutral.{FromNeu_SyncSpeed, FromNeu_RequestOpenClutch, FromNeu_OpenClutch, Error_FromNeu_OpenClutch, FromNeu_SetGear_NoClutch, Error_FromNeu_SetGear_NoClutch, FromNeu_SetGear_Clutch, Error_FromNeu_SetGear_Clutch, FromNeu_CloseClutch, Error_FromNeu_CloseClutch};
ghost use Rattle.manual.specs.ToNeutral.{ToNeu_ZeroTorque, ToNeu_RequestOpenClutch, ToNeu_OpenClutch, Error_ToNeu_OpenClutch, ToNeu_Release_NoClutch, Error_ToNeu_Release_NoClutch, ToNeu_Release_Clutch, Error_ToNeu_Release_Clutch, ToNeu_CloseClutch, Error_ToNeu_CloseClutch};

use limits::Table;
use manual::{Event, Variables, early, early_by, late, late_by};

pub fn FromNeu_SyncSpeed(mut v: Variables, table: Table) -> Event
    ensures { result ≡ FromNeu_SyncSpeed table v }
{
    let enabled = v.RequestFromNeu // grd1
        & !v.FromNeu_SyncSpeed // grd2
        & !v.FromNeu_RequestOpenClutch // grd3
        & v.Engine_SyncSpeed; // grd4
    let number = late(v.time, v.RequestFromNeuT, table.sync_ex); // grd5
    let excess = late_by(v.time, v.RequestFromNeuT, table.sync_ex); // past grd5
    v.FromNeu_SyncSpeed = true; // act1
    v.FromNeu_SyncSpeedT = v.time; // act2
    Event {
        enabled,
        number,
        excess,
        after: v,
    }
}

pub fn FromNeu_RequestOpenClutch(mut v: Variables, table: Table) -> Event
    ensures { result ≡ FromNeu_RequestOpenClutch table v }
{
    let enabled = v.RequestFromNeu // grd1
        & !v.FromNeu_SyncSpeed // grd2
        & !v.FromNeu_RequestOpenClutch // grd3
        & v.Engine_WaitForSyncClutch; // 01: the engine waits; not printed
    let number = early(v.time, v.RequestFromNeuT, table.sync_de); // grd4; 01: the delay of an engine that synchronizes; printed OpenClutch_Zero_DE
    let excess = early_by(v.time, v.RequestFromNeuT, table.sync_de); // before grd4
    v.FromNeu_RequestOpenClutch = true; // act1
    v.FromNeu_RequestOpenClutchT = v.time; // act2
    Event {
        enabled,
        number,
        excess,
        after: v,
    }
}

pub fn FromNeu_OpenClutch(mut v: Variables) -> Event
    ensures { result ≡ FromNeu_OpenClutch v }
{
    let enabled = v.FromNeu_RequestOpenClutch // grd1
        & !v.Error_FromNeu_OpenClutch // grd2
        & !v.FromNeu_OpenClutch // grd3
        & v.Clutch_Open; // grd4
    v.FromNeu_OpenClutch = true; // act1
    v.FromNeu_OpenClutchT = v.time; // act2
    Event::free(enabled, v)
}

pub fn Error_FromNeu_OpenClutch(mut v: Variables) -> Event
    ensures { result ≡ Error_FromNeu_OpenClutch v }
{
    let enabled = v.FromNeu_RequestOpenClutch // grd1
        & !v.Error_FromNeu_OpenClutch // grd2
        & !v.FromNeu_OpenClutch // grd3
        & v.Error_Clutch_Open; // 01: the device has failed; not printed
    v.Error_FromNeu_OpenClutch = true; // act1
    Event::free(enabled, v)
}

pub fn FromNeu_SetGear_NoClutch(mut v: Variables) -> Event
    ensures { result ≡ FromNeu_SetGear_NoClutch v }
{
    let enabled = v.FromNeu_SyncSpeed // grd1
        & !v.Error_FromNeu_SetGear_NoClutch // grd2
        & !v.FromNeu_SetGear_NoClutch // grd3
        & v.Gear_Set; // grd4
    v.FromNeu_SetGear_NoClutch = true; // act1
    v.isNeu = false; // act2
    Event::free(enabled, v)
}

pub fn Error_FromNeu_SetGear_NoClutch(mut v: Variables) -> Event
    ensures { result ≡ Error_FromNeu_SetGear_NoClutch v }
{
    let enabled = v.FromNeu_SyncSpeed // grd1
        & !v.Error_FromNeu_SetGear_NoClutch // grd2
        & !v.FromNeu_SetGear_NoClutch // grd3
        & v.Error_Gear_Set; // grd4; 01: the device has failed; printed Gear_Set
    v.Error_FromNeu_SetGear_NoClutch = true; // act1
    Event::free(enabled, v)
}

pub fn FromNeu_SetGear_Clutch(mut v: Variables) -> Event
    ensures { result ≡ FromNeu_SetGear_Clutch v }
{
    let enabled = v.FromNeu_OpenClutch // grd1
        & !v.Error_FromNeu_SetGear_Clutch // grd2
        & !v.FromNeu_SetGear_Clutch // grd3
        & v.Gear_Set; // grd4
    v.FromNeu_SetGear_Clutch = true; // act1
    v.FromNeu_SetGear_ClutchT = v.time; // act2
    v.isNeu = false; // 02: taking a set order makes the box in gear; not printed
    Event::free(enabled, v)
}

pub fn Error_FromNeu_SetGear_Clutch(mut v: Variables) -> Event
    ensures { result ≡ Error_FromNeu_SetGear_Clutch v }
{
    let enabled = v.FromNeu_OpenClutch // grd1
        & !v.Error_FromNeu_SetGear_Clutch // grd2
        & !v.FromNeu_SetGear_Clutch // grd3
        & v.Error_Gear_Set; // 01: the device has failed; not printed
    v.Error_FromNeu_SetGear_Clutch = true; // act1
    Event::free(enabled, v)
}

pub fn FromNeu_CloseClutch(mut v: Variables) -> Event
    ensures { result ≡ FromNeu_CloseClutch v }
{
    let enabled = v.FromNeu_SetGear_Clutch // grd1
        & !v.Error_FromNeu_CloseClutch // grd2
        & !v.FromNeu_CloseClutch // grd3
        & v.Clutch_Close; // grd4
    v.FromNeu_CloseClutch = true; // act1
    // act2; 02: left out, as entering 22 no longer moves the box; printed isNeu := FALSE
    Event::free(enabled, v)
}

pub fn Error_FromNeu_CloseClutch(mut v: Variables) -> Event
    ensures { result ≡ Error_FromNeu_CloseClutch v }
{
    let enabled = v.FromNeu_SetGear_Clutch // grd1
        & !v.Error_FromNeu_CloseClutch // grd2
        & !v.FromNeu_CloseClutch // grd3
        & v.Error_Clutch_Close; // 01: the device has failed; not printed
    v.Error_FromNeu_CloseClutch = true; // act1
    Event::free(enabled, v)
}

pub fn ToNeu_ZeroTorque(mut v: Variables, table: Table) -> Event
    ensures { result ≡ ToNeu_ZeroTorque table v }
{
    let enabled = v.RequestToNeu // grd1
        & !v.ToNeu_ZeroTorque // grd2
        & !v.ToNeu_RequestOpenClutch // grd3
        & v.Engine_ZeroTorque; // grd4
    let number = late(v.time, v.RequestToNeuT, table.zero_ex); // grd5
    let excess = late_by(v.time, v.RequestToNeuT, table.zero_ex); // past grd5
    v.ToNeu_ZeroTorque = true; // act1
    v.ToNeu_ZeroTorqueT = v.time; // act2
    Event {
        enabled,
        number,
        excess,
        after: v,
    }
}

pub fn ToNeu_RequestOpenClutch(mut v: Variables, table: Table) -> Event
    ensures { result ≡ ToNeu_RequestOpenClutch table v }
{
    let enabled = v.RequestToNeu // grd1
        & !v.ToNeu_ZeroTorque // grd2
        & !v.ToNeu_RequestOpenClutch // grd3
        & v.Engine_WaitForZeroClutch; // 01: the engine waits; not printed
    let number = early(v.time, v.RequestToNeuT, table.zero_de); // grd4
    let excess = early_by(v.time, v.RequestToNeuT, table.zero_de); // before grd4
    v.ToNeu_RequestOpenClutch = true; // act1
    v.ToNeu_RequestOpenClutchT = v.time; // act2
    Event {
        enabled,
        number,
        excess,
        after: v,
    }
}

pub fn ToNeu_OpenClutch(mut v: Variables) -> Event
    ensures { result ≡ ToNeu_OpenClutch v }
{
    let enabled = v.ToNeu_RequestOpenClutch // grd1
        & !v.ToNeu_OpenClutch // grd2
        & !v.Error_ToNeu_OpenClutch // grd3
        & v.Clutch_Open; // grd4
    v.ToNeu_OpenClutch = true; // act1
    v.ToNeu_OpenClutchT = v.time; // act2
    Event::free(enabled, v)
}

pub fn Error_ToNeu_OpenClutch(mut v: Variables) -> Event
    ensures { result ≡ Error_ToNeu_OpenClutch v }
{
    let enabled = v.ToNeu_RequestOpenClutch // grd1
        & !v.ToNeu_OpenClutch // grd2
        & !v.Error_ToNeu_OpenClutch // grd3
        & v.Error_Clutch_Open; // 01: the device has failed; not printed
    v.Error_ToNeu_OpenClutch = true; // act1
    Event::free(enabled, v)
}

pub fn ToNeu_Release_NoClutch(mut v: Variables) -> Event
    ensures { result ≡ ToNeu_Release_NoClutch v }
{
    let enabled = v.ToNeu_ZeroTorque // grd1
        & !v.ToNeu_Release_NoClutch // grd2
        & !v.Error_ToNeu_Release_NoClutch // grd3
        & v.Gear_Release; // grd4
    v.ToNeu_Release_NoClutch = true; // act1
    v.isNeu = true; // act2
    Event::free(enabled, v)
}

pub fn Error_ToNeu_Release_NoClutch(mut v: Variables) -> Event
    ensures { result ≡ Error_ToNeu_Release_NoClutch v }
{
    let enabled = v.ToNeu_ZeroTorque // grd1
        & !v.ToNeu_Release_NoClutch // grd2
        & !v.Error_ToNeu_Release_NoClutch // grd3
        & v.Error_Gear_Release; // 01: the device has failed; not printed
    v.Error_ToNeu_Release_NoClutch = true; // act1
    Event::free(enabled, v)
}

pub fn ToNeu_Release_Clutch(mut v: Variables) -> Event
    ensures { result ≡ ToNeu_Release_Clutch v }
{
    let enabled = v.ToNeu_OpenClutch // grd1
        & !v.ToNeu_Release_Clutch // grd2
        & !v.Error_ToNeu_Release_Clutch // grd3
        & v.Gear_Release; // grd4
    v.ToNeu_Release_Clutch = true; // act1
    v.ToNeu_Release_ClutchT = v.time; // act2
    v.isNeu = true; // 02: taking a release order makes the box neutral; not printed
    Event::free(enabled, v)
}

pub fn Error_ToNeu_Release_Clutch(mut v: Variables) -> Event
    ensures { result ≡ Error_ToNeu_Release_Clutch v }
{
    let enabled = v.ToNeu_OpenClutch // grd1
        & !v.ToNeu_Release_Clutch // grd2
        & !v.Error_ToNeu_Release_Clutch // grd3
        & v.Error_Gear_Release; // 01: the device has failed; not printed
    v.Error_ToNeu_Release_Clutch = true; // act1
    Event::free(enabled, v)
}

pub fn ToNeu_CloseClutch(mut v: Variables) -> Event
    ensures { result ≡ ToNeu_CloseClutch v }
{
    let enabled = v.ToNeu_Release_Clutch // grd1
        & !v.ToNeu_CloseClutch // grd2
        & !v.Error_ToNeu_CloseClutch // grd3
        & v.Clutch_Close; // grd4
    v.ToNeu_CloseClutch = true; // act1
    // act2; 02: left out, as entering 22 no longer moves the box; printed isNeu := TRUE
    Event::free(enabled, v)
}

pub fn Error_ToNeu_CloseClutch(mut v: Variables) -> Event
    ensures { result ≡ Error_ToNeu_CloseClutch v }
{
    let enabled = v.ToNeu_Release_Clutch // grd1
        & !v.ToNeu_CloseClutch // grd2
        & !v.Error_ToNeu_CloseClutch // grd3
        & v.Error_Clutch_Close; // 01: the device has failed; not printed
    v.Error_ToNeu_CloseClutch = true; // act1
    Event::free(enabled, v)
}
