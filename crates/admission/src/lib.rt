// What is told of a limit table before it goes out: which entries are tighter than in the old one, which rules it breaks, the sides of
// these rules, and the four route sums.
#![tactic(auto)]

ghost use Rattle.std.specs.Prelude.{◌≡◌, true, get_or};
ghost use Rattle.limits.specs.Rules.{delay_rules};
ghost use Rattle.admission.specs.FirstTighter.{is_limit, is_wait, tighter_at, first_tighter};
ghost use Rattle.admission.specs.Broken.{is_broken, sums_of, left_side, right_entries, right_side, is_strict};

use limits::{Table, both_ways, entry_at, sum, waits};

// The entry of this number is tighter in the new table: a limit that is smaller, or a waiting time that is larger.
pub fn is_tighter(old: Table, new: Table, entry: usize) -> bool
    ensures { result ≡ tighter_at old new entry }
{
    let before = entry_at(&old.entries(), entry);
    let after = entry_at(&new.entries(), entry);
    (is_limit(entry) & (after < before)) | (is_wait(entry) & (before < after))
}

// Entries 0 to 10 and 13 to 16.
fn is_limit(entry: usize) -> bool
    ensures { result ≡ is_limit entry }
{
    matches!(entry, 0..=10 | 13..=16)
}

// Entries 11, 12 and 18 to 21, the waiting times.
fn is_wait(entry: usize) -> bool
    ensures { result ≡ is_wait entry }
{
    matches!(entry, 11..=12 | 18..=21)
}

// The number of the first entry that is tighter in the new table, 22 where none is: munasirel_tighter hands it to C.
pub fn first_tighter(old: Table, new: Table) -> u8
    ensures { result ≡ first_tighter old new }
{
    (0..22u8)
        .find(|&entry| is_tighter(old, new, usize::from(entry)))
        .unwrap_or(22)
}

// The table breaks the rule of this number, 1 to 16; there is no other. Here and below any number is answered for, where `limits::Rule`
// would ask more of who calls; and a struct of table and number would be made anew for each call.
pub fn is_broken(table: Table, rule: u8) -> bool
    ensures { result ≡ is_broken table rule }
{
    match rule {
        1 => !table.is_set(),
        16 => !keeps_rule_16(table),
        _ => {
            let left = left_side(table, rule);
            let right = right_side(table, rule);
            if is_strict(rule) {
                right <= left
            } else {
                right < left
            }
        }
    }
}

// Either all four delays are 0, or both clutch orders wait. `limits` asks it of a table with delays alone, which spares most a call.
fn keeps_rule_16(table: Table) -> bool
    ensures { result ≡ get_or (delay_rules table) 0 true }
{
    table.is_undelayed()
        | (waits(
            table.clutch_open_de,
            table.error_clutch_open_de,
            table.clutch_open_dl,
        ) & waits(
            table.clutch_close_de,
            table.error_clutch_close_de,
            table.clutch_close_dl,
        ))
}

// Rules 4 to 9, whose left side is less than the right one; in the others from 2 to 15 it is no more.
pub fn is_strict(rule: u8) -> bool
    ensures { result ≡ is_strict rule }
{
    matches!(rule, 4..=9)
}

// The four route sums.
#[derive(Clone, Copy, Debug, PartialEq, Eq)]
pub struct RouteSums {
    pub f: u32,
    pub n: u32,
    pub g1: u32,
    pub g2: u32,
}

// `limits` adds them up inside its rules 12 to 15, on the judge's way for each file; both are proved against sum_f to sum_g2.
pub fn sums(table: Table) -> RouteSums
    ensures { result ≡ sums_of table }
{
    let clutch = sum(table.open_clutch_dl, table.close_clutch_dl);
    let f = sum(table.sync_dl, table.set_gear_dl) + clutch;
    let n = sum(table.zero_dl, table.release_dl) + clutch;
    let g1 = sum(table.zero_ex, table.release_dl) + f;
    let g2 = n + u32::from(table.set_gear_dl);
    RouteSums { f, n, g1, g2 }
}

// The left side of a rule from 2 to 15, 0 for any other number, as the definition left_side has it.
pub fn left_side(table: Table, rule: u8) -> u32
    ensures { result ≡ left_side table rule }
{
    match rule {
        2 => both_ways(table.channel_dl, table.engine_sync_dl),
        3 => both_ways(table.channel_dl, table.engine_zero_dl),
        4 => both_ways(table.channel_dl, table.clutch_open_dl),
        5 => both_ways(table.channel_dl, table.clutch_close_dl),
        6 => both_ways(table.channel_dl, table.gear_set_dl),
        7 => both_ways(table.channel_dl, table.gear_release_dl),
        8 => u32::from(table.sync_ex),
        9 => u32::from(table.zero_ex),
        10 => u32::from(table.sync_de),
        11 => u32::from(table.zero_de),
        12 => sums(table).f,
        13 => sums(table).n,
        14 => sums(table).g1,
        15 => sums(table).g2,
        _ => 0,
    }
}

// The right side of a rule from 2 to 15, 0 for any other number.
fn right_side(table: Table, rule: u8) -> u32
    ensures { result ≡ right_side table rule }
{
    u32::from(entry_at(&table.entries(), right_entry(rule)))
}

// The entry that is the right side of a rule from 2 to 15; 22, which is no entry, for any other number, as right_entries has it: who calls
// asks `entry_at`, which answers 0 for it.
pub fn right_entry(rule: u8) -> usize
    ensures { result ≡ get_or right_entries rule 22 }
{
    match rule {
        2 => 7,
        3 => 8,
        4 => 13,
        5 => 16,
        6 => 14,
        7 => 15,
        8 => 11,
        9 => 12,
        10 => 9,
        11 => 10,
        12..=15 => 17,
        _ => 22,
    }
}
