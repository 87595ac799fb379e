// The phase along accepted records, by their codes alone: no table, no stage, no guard.
#![tactic(auto)]

ghost use Rattle.std.specs.Prelude.{◌≡◌};
ghost use Rattle.trace.specs.Traces.{phase_by};

use phases::{clutch_of, next_of};

// The phase after a step with this code; what is no step's code leaves it. The code is a number and no `Step`: who follows accepted records
// by it, as the list of shifts does, has read no amount, and an arm for each code is the list that `phase_by` has.
pub fn phase_after(phase: u8, code: u8) -> u8
    ensures { result ≡ phase_by phase code }
{
    match code {
        0 => phase,
        1 => 1,
        2 => 6,
        3 => 17,
        4 => phase,
        5 => phase,
        6 => phase,
        7 => phase,
        8 => next_of(phase),
        9 => clutch_of(phase),
        10 => 23,
        11 => 0,
        12 => phase,
        13 => 0,
        _ => phase,
    }
}
