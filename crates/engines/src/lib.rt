// What a case of records for both engines is answered by: each from its start, up to its first number that is not 0.
#![tactic(auto)]

use limits::Table;
use manual::{Moved, Variables};
use manual_reading::Read;
use printing::Line;
use shift::{Answer, State};
use std::io::Write;

// The line of a table and records, behind its word: of the manual's engine, then of ours.
pub fn print(writer: &mut impl Write, table: Table, records: &[u8]) {
    let mut line = Line::to(writer);
    print_run::<Moved>(&mut line, table, records);
    print_run::<Answer>(&mut line, table, records);
}

// An engine, by its answer to a record.
trait Engine: Copy {
    // What it has before any record.
    fn start() -> Self;

    // Its answer to a record's four bytes, on what it has kept.
    fn advanced(&self, table: Table, record: [u8; 4]) -> Self;

    fn number(&self) -> u8;

    fn rule(&self) -> u8;

    fn excess(&self) -> u64;

    fn print_kept(&self, line: &mut Line<impl Write>);
}

// The manual's engine, from INITIALISATION.
impl Engine for Moved {
    fn start() -> Moved {
        Moved::accepted(Variables::initialisation())
    }

    fn advanced(&self, table: Table, record: [u8; 4]) -> Moved {
        let [code, middle, low, high] = record;
        let amount = u32::from(u16::from_le_bytes([low, high]));
        manual_engine::step(self.variables, table, code, middle, amount)
    }

    fn number(&self) -> u8 {
        self.number
    }

    fn rule(&self) -> u8 {
        self.rule
    }

    fn excess(&self) -> u64 {
        self.excess
    }

    fn print_kept(&self, line: &mut Line<impl Write>) {
        line.flags(&flags(self.variables));
        for time in times(self.variables) {
            line.number(time);
        }
        print_read(line, manual_reading::reading(self.variables));
    }
}

// Our engine, from its start.
impl Engine for Answer {
    fn start() -> Answer {
        Answer {
            number: 0,
            rule: 0,
            excess: 0,
            state: State::start(),
        }
    }

    fn advanced(&self, table: Table, record: [u8; 4]) -> Answer {
        let [code, middle, low, high] = record;
        gateway::advanced(self.state, table, code, middle, low, high)
    }

    fn number(&self) -> u8 {
        self.number
    }

    fn rule(&self) -> u8 {
        self.rule
    }

    fn excess(&self) -> u64 {
        self.excess
    }

    fn print_kept(&self, line: &mut Line<impl Write>) {
        line.state(self.state);
    }
}

// The last number, its rule, how many records were accepted, the last excess, and what the engine keeps.
fn print_run<E: Engine>(line: &mut Line<impl Write>, table: Table, records: &[u8]) {
    let (records, _) = records.as_chunks::<4>();
    let mut answer = E::start();
    let mut accepted = records.len();
    for (index, record) in records.iter().enumerate() {
        answer = answer.advanced(table, *record);
        if answer.number() != 0 {
            accepted = index;
            break;
        }
    }
    line.number(answer.number());
    line.number(answer.rule());
    line.number(accepted);
    line.number(answer.excess());
    answer.print_kept(line);
}

// The variables of type BOOL.
fn flags(v: Variables) -> [bool; 64] {
    [
        v.isNeu,
        v.RequestFromNeu,
        v.RequestNoNeu,
        v.RequestToNeu,
        v.FromNeu_SyncSpeed,
        v.FromNeu_OpenClutch,
        v.FromNeu_SetGear_NoClutch,
        v.FromNeu_SetGear_Clutch,
        v.FromNeu_CloseClutch,
        v.Error_FromNeu_OpenClutch,
        v.Error_FromNeu_SetGear_NoClutch,
        v.Error_FromNeu_SetGear_Clutch,
        v.Error_FromNeu_CloseClutch,
        v.ToNeu_ZeroTorque,
        v.ToNeu_OpenClutch,
        v.Error_ToNeu_OpenClutch,
        v.ToNeu_Release_NoClutch,
        v.Error_ToNeu_Release_NoClutch,
        v.ToNeu_Release_Clutch,
        v.Error_ToNeu_Release_Clutch,
        v.ToNeu_CloseClutch,
        v.Error_ToNeu_CloseClutch,
        v.NoNeu_ZeroTorque,
        v.NoNeu_Release_NoClutch,
        v.NoNeu_OpenClutch_Releasing,
        v.NoNeu_Release_Clutch,
        v.NoNeu_SyncSpeed,
        v.NoNeu_OpenClutch_Setting,
        v.NoNeu_SetGear_NoClutch,
        v.NoNeu_SetGear_ReleasingClutch,
        v.NoNeu_SetGear_SettingClutch,
        v.NoNeu_CloseClutch_Releasing,
        v.NoNeu_CloseClutch_Setting,
        v.Error_NoNeu_OpenClutch_Releasing,
        v.Error_NoNeu_Release_Clutch,
        v.Error_NoNeu_Release_NoClutch,
        v.Error_NoNeu_OpenClutch_Setting,
        v.Error_NoNeu_SetGear_NoClutch,
        v.Error_NoNeu_SetGear_ReleasingClutch,
        v.Error_NoNeu_SetGear_SettingClutch,
        v.Error_NoNeu_CloseClutch_Releasing,
        v.Error_NoNeu_CloseClutch_Setting,
        v.Engine_SyncSpeed,
        v.Engine_WaitForSyncClutch,
        v.Engine_ZeroTorque,
        v.Engine_WaitForZeroClutch,
        v.Clutch_Open,
        v.Error_Clutch_Open,
        v.Clutch_Close,
        v.Error_Clutch_Close,
        v.Gear_Release,
        v.Error_Gear_Release,
        v.Gear_Set,
        v.Error_Gear_Set,
        v.FromNeu_RequestOpenClutch,
        v.ToNeu_RequestOpenClutch,
        v.NoNeu_RequestOpenClutch_Releasing,
        v.NoNeu_RequestOpenClutch_Setting,
        v.Engine_Request_SyncSpeed,
        v.Engine_Request_ZeroTorque,
        v.Clutch_Request_Open,
        v.Clutch_Request_Close,
        v.Gear_Request_Release,
        v.Gear_Request_Set,
    ]
}

// The other variables.
fn times(v: Variables) -> [u32; 34] {
    [
        v.time,
        v.RequestFromNeuT,
        v.RequestNoNeuT,
        v.RequestToNeuT,
        v.FromNeu_OpenClutchT,
        v.FromNeu_SyncSpeedT,
        v.FromNeu_SetGear_ClutchT,
        v.ToNeu_ZeroTorqueT,
        v.ToNeu_OpenClutchT,
        v.ToNeu_Release_ClutchT,
        v.NoNeu_ZeroTorqueT,
        v.NoNeu_Release_NoClutchT,
        v.NoNeu_OpenClutch_ReleasingT,
        v.NoNeu_Release_ClutchT,
        v.NoNeu_SetGear_ReleasingClutchT,
        v.NoNeu_SetGear_SettingClutchT,
        v.NoNeu_SyncSpeedT,
        v.NoNeu_OpenClutch_SettingT,
        v.FromNeu_RequestOpenClutchT,
        v.ToNeu_RequestOpenClutchT,
        v.NoNeu_RequestOpenClutch_ReleasingT,
        v.NoNeu_RequestOpenClutch_SettingT,
        v.Engine_Request_SyncSpeedT,
        v.Engine_Request_ZeroTorqueT,
        v.Clutch_Request_OpenT,
        v.Clutch_Request_CloseT,
        v.Gear_Request_ReleaseT,
        v.Gear_Request_SetT,
        v.Engine_SyncSpeedT,
        v.Engine_ZeroTorqueT,
        v.Clutch_OpenT,
        v.Clutch_CloseT,
        v.Gear_ReleaseT,
        v.Gear_SetT,
    ]
}

// The fields in the order of docs/CORPUS.md, which is not that of Read.
fn print_read(line: &mut Line<impl Write>, read: Read) {
    line.number(read.clock);
    line.number(read.gear_box);
    line.number(read.phase);
    line.number(read.stage);
    line.number(read.phase_time);
    line.number(read.stage_time);
    line.number(read.request_time);
}
