// The phase table of document 01, and the limits that a phase has by its order.
#![tactic(auto)]

ghost use Rattle.std.specs.Prelude.{◌≡◌, get_or};
ghost use Rattle.phases.specs.Phases.{order_of, next_of, clutch_of, device_entries, phase_entries, device_limit, phase_limit, latest_take, earliest_ask, plain_delay, error_delay, unfinished};

use limits::{Table, entry_at};

// The orders, numbered as the entries of their device limits. Phases and orders are numbers: `State`, which C reads, keeps the phase as
// one, and the limits by order below answer for any number, where an enum would ask more of who calls them.
pub const SYNC: u8 = 1;

pub const ZERO_TORQUE: u8 = 2;

pub const OPEN: u8 = 3;

pub const CLOSE: u8 = 4;

pub const SET: u8 = 5;

pub const RELEASE: u8 = 6;

// The three choices below are columns of the wall sheet, docs/PHASES.md, case by case and in its order. What is empty there is 0
// here. A comment behind a case is what the sheet has in its first column besides the number.

// The order of a phase. The working phases stand by kinds of shift.
pub fn order_of(phase: u8) -> u8
    ensures { result ≡ order_of phase }
{
    match phase {
        0..=0 => 0, // at rest
        1..=21 => match phase {
            1..=5 => match phase {
                1 => SYNC, // (from neutral)
                2 => OPEN,
                3 => SET,
                4 => SET,
                5 => CLOSE,
                _ => 0,
            },
            6..=16 => match phase {
                6 => ZERO_TORQUE, // (gear to gear)
                7 => OPEN,
                8 => RELEASE,
                9 => RELEASE,
                10 => SYNC,
                11 => OPEN,
                12 => SET,
                13 | 14 => SET,
                15 | 16 => CLOSE,
                _ => 0,
            },
            17..=21 => match phase {
                17 => ZERO_TORQUE, // (to neutral)
                18 => OPEN,
                19 => RELEASE,
                20 => RELEASE,
                21 => CLOSE,
                _ => 0,
            },
            _ => 0,
        },
        22..=23 => 0, // done, error
        _ => 0,
    }
}

// The next phase when a phase's order is taken. The working phases stand in three ranges: in a finer or a coarser order of ranges a
// step takes longer (docs/DECISIONS.md).
pub fn next_of(phase: u8) -> u8
    ensures { result ≡ next_of phase }
{
    match phase {
        0..=0 => 0, // at rest
        1..=21 => match phase {
            1..=14 => match phase {
                1 => 3, // (from neutral)
                2 => 4,
                3 => 22,
                4 => 5,
                5 => 22,
                6 => 8, // (gear to gear)
                7 => 9,
                8 => 10,
                9 => 14,
                10 => 12,
                11 => 13,
                12 => 22,
                13 => 15, // 13 / 14
                14 => 16, // 13 / 14
                _ => 0,
            },
            15 | 16 => 22,
            17..=21 => match phase {
                17 => 19, // (to neutral)
                18 => 20,
                19 => 22,
                20 => 21,
                21 => 22,
                _ => 0,
            },
            _ => 0,
        },
        22..=23 => 0, // done, error
        _ => 0,
    }
}

// The phase after asking for the clutch.
pub fn clutch_of(phase: u8) -> u8
    ensures { result ≡ clutch_of phase }
{
    match phase {
        0..=0 => 0, // at rest
        1..=21 => match phase {
            1 => 2, // (from neutral)
            6 => 7, // (gear to gear)
            10 => 11,
            17 => 18, // (to neutral)
            _ => 0,
        },
        22..=23 => 0, // done, error
        _ => 0,
    }
}

// The entry of an order's device limit, and that of its phase limit; 22, which is no entry, where there is no such order. These two, and
// the limits and delays by order, are columns of document 01's limits, an order a line: one function of several would take the columns as
// arrays, in which no line names its order, and a struct of table and order would be made anew for each call. 22 and no Option: who calls
// asks `entry_at`, which answers 0 for it, as the definitions device_entries and phase_entries have it.
pub fn device_entry(order: u8) -> usize
    ensures { result ≡ get_or device_entries order 22 }
{
    match order {
        SYNC => 1,
        ZERO_TORQUE => 2,
        OPEN => 3,
        CLOSE => 4,
        SET => 5,
        RELEASE => 6,
        _ => 22,
    }
}

pub fn phase_entry(order: u8) -> usize
    ensures { result ≡ get_or phase_entries order 22 }
{
    match order {
        SYNC => 9,
        ZERO_TORQUE => 10,
        OPEN => 13,
        CLOSE => 16,
        SET => 14,
        RELEASE => 15,
        _ => 22,
    }
}

// The device limit of an order. Kept out of the judge's loop, where only a refused step asks for it or for the phase limit: a busy record
// takes 38.8 instructions so, else 40.0.
#[inline(never)]
pub fn device_limit(table: Table, order: u8) -> u16
    ensures { result ≡ device_limit table order }
{
    entry_at(&table.entries(), device_entry(order))
}

// The phase limit of an order.
#[inline(never)]
pub fn phase_limit(table: Table, order: u8) -> u16
    ensures { result ≡ phase_limit table order }
{
    entry_at(&table.entries(), phase_entry(order))
}

// The EX of an order.
pub fn latest_take(table: Table, order: u8) -> u16
    ensures { result ≡ latest_take table order }
{
    match order {
        SYNC => table.sync_ex,
        ZERO_TORQUE => table.zero_ex,
        _ => 0,
    }
}

// The DE of an order.
pub fn earliest_ask(table: Table, order: u8) -> u16
    ensures { result ≡ earliest_ask table order }
{
    match order {
        SYNC => table.sync_de,
        ZERO_TORQUE => table.zero_de,
        _ => 0,
    }
}

// The plain delay of an order: how long its device cannot be good.
pub fn plain_delay(table: Table, order: u8) -> u16
    ensures { result ≡ plain_delay table order }
{
    match order {
        OPEN => table.clutch_open_de,
        CLOSE => table.clutch_close_de,
        _ => 0,
    }
}

// The error delay of an order: how long its device cannot have failed.
pub fn error_delay(table: Table, order: u8) -> u16
    ensures { result ≡ error_delay table order }
{
    match order {
        OPEN => table.error_clutch_open_de,
        CLOSE => table.error_clutch_close_de,
        _ => 0,
    }
}

// Phases 1 to 21.
pub fn is_unfinished(phase: u8) -> bool
    ensures { result ≡ unfinished phase }
{
    matches!(phase, 1..=21)
}
