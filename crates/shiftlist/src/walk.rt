// Along the records: clock and phase, and the shift that was begun last.
ghost use Rattle.std.specs.Prelude.{◌≡◌, ◌-◌};
ghost use Rattle.shiftlist.specs.Shifts.{end_of};
ghost use Rattle.shiftlist.specs.Walks.{in_hand, stepped_by};

use crate::Shift;
use trace::phase_after;

// Kind and route are document 02's numbers, as C gets them in `Shift`.
#[derive(Clone, Copy, Default)]
pub struct Walk {
    pub clock: u32,
    pub phase: u8,
    pub first: u16,
    pub last: u16,
    pub kind: u8,
    pub route: u8,
    pub request_time: u32,
}

impl Walk {
    // One record further, the record with this number, by its code, which is no tick's. Codes 1 to 3 are requests.
    pub(crate) fn after(self, number: u16, code: u8) -> Walk
        ensures { result ≡ stepped_by self number code }
    {
        let phase = phase_after(self.phase, code);
        if matches!(code, 1..=3) {
            return Walk {
                phase,
                first: number,
                last: number,
                kind: code,
                route: 0,
                request_time: self.clock,
                ..self
            };
        }
        Walk {
            phase,
            last: number,
            route: if code == 9 { 1 } else { self.route },
            ..self
        }
    }

    // The entry of the shift in hand.
    pub(crate) fn entry(self) -> Shift
        ensures { result ≡ in_hand self }
    {
        Shift {
            first: self.first,
            last: self.last,
            kind: self.kind,
            route: self.route,
            end: end_of(self.phase),
            request_time: self.request_time,
            age: age_of(self.clock, self.request_time),
        }
    }
}

// How a shift stands in a phase: 1 done, 2 error, 0 open. Numbers of document 02: C gets them in `Shift.end`.
fn end_of(phase: u8) -> u8
    ensures { result ≡ end_of phase }
{
    match phase {
        22 => 1,
        23 => 2,
        _ => 0,
    }
}

// Clock minus request time, 0 where the request lies ahead.
pub fn age_of(clock: u32, time: u32) -> u32
    ensures { result ≡ clock - time }
{
    clock.saturating_sub(time)
}
