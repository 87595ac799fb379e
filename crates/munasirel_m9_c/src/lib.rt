// The archive of the manual's engine that a host in C links: each function of `munasirel_m9`, exported under its name with its contract.
// The two are written out side by side, as those of `munasirel` and `munasirel_c` are: an exported name is one function of a static crate.
#![tactic(auto)]

ghost use Rattle.std.specs.Prelude.{◌≡◌, ◌+◌, ◌*◌};
ghost use Rattle.manual.specs.Variables.{initialisation};
ghost use Rattle.manual.specs.Answers.{moved_on};
ghost use Rattle.manual_reading.specs.Reading.{reading};

use limits::Table;
use manual::{Moved, Variables};
use manual_reading::Read;

// The variables of the manual's machine m9 at INITIALISATION.
#[unsafe(no_mangle)]
pub extern "C" fn munasirel_m9_start() -> Variables
    ensures { result ≡ initialisation }
{
    munasirel_m9::munasirel_m9_start()
}

// One record's four bytes on the manual's variables, which are handed back as they were where they are refused.
#[unsafe(no_mangle)]
pub extern "C" fn munasirel_m9_advance(
    variables: Variables,
    table: Table,
    code: u8,
    middle: u8,
    low: u8,
    high: u8,
) -> Moved
    ensures { result ≡ moved_on table variables code middle (low + 256 * high) }
{
    munasirel_m9::munasirel_m9_advance(variables, table, code, middle, low, high)
}

// What the manual's variables say in our terms.
#[unsafe(no_mangle)]
pub extern "C" fn munasirel_m9_reading(variables: Variables) -> Read
    ensures { result ≡ reading variables }
{
    munasirel_m9::munasirel_m9_reading(variables)
}
