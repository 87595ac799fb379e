// What a host in C calls of the manual's engine: its variables at the start, one record on them, and what they say in our terms.
#![tactic(auto)]

ghost use Rattle.std.specs.Prelude.{◌≡◌, ◌+◌, ◌*◌};
ghost use Rattle.manual.specs.Variables.{initialisation};
ghost use Rattle.manual.specs.Answers.{moved_on};
ghost use Rattle.manual_reading.specs.Reading.{reading};

use limits::Table;
use manual::{Moved, Variables};
use manual_reading::Read;

// The variables of the manual's machine m9 at INITIALISATION.
#[unsafe(no_mangle)]
pub extern "C" fn munasirel_m9_start() -> Variables
    ensures { result ≡ initialisation }
{
    Variables::initialisation()
}

// One record's four bytes on the manual's variables, which are handed back as they were where they are refused.
#[unsafe(no_mangle)]
pub extern "C" fn munasirel_m9_advance(
    variables: Variables,
    table: Table,
    code: u8,
    middle: u8,
    low: u8,
    high: u8,
) -> Moved
    ensures { result ≡ moved_on table variables code middle (low + 256 * high) }
{
    let amount = u32::from(u16::from_le_bytes([low, high]));
    manual_engine::step(variables, table, code, middle, amount)
}

// What the manual's variables say in our terms.
#[unsafe(no_mangle)]
pub extern "C" fn munasirel_m9_reading(variables: Variables) -> Read
    ensures { result ≡ reading variables }
{
    manual_reading::reading(variables)
}
