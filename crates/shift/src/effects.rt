// What each step makes of the state. What a step doesn't name, it keeps.
ghost use Rattle.std.specs.Prelude.{◌≡◌, ◌+◌, ◌≤◌};
ghost use Rattle.shift.specs.States.{entered};
ghost use Rattle.shift.specs.Steps.{requested, boxed, box_taken, staged, ticked, effect};

use crate::{State, Step};
use phases::{RELEASE, SET, clutch_of, is_unfinished, next_of, order_of};

impl State {
    // The state in another phase, the box as it is.
    fn enter(self, phase: u8) -> State
        ensures { result ≡ entered phase self }
    {
        let now = self.clock;
        State {
            phase,
            phase_time: now,
            stage: if is_unfinished(phase) { 1 } else { 0 },
            stage_time: now,
            request_time: if phase == 0 { 0 } else { self.request_time },
            failed_phase: if phase == 23 { self.phase } else { 0 },
            ..self
        }
    }

    // Request time = clock.
    fn requested(self) -> State
        ensures { result ≡ requested self }
    {
        State {
            request_time: self.clock,
            ..self
        }
    }

    // The box on this side.
    fn boxed(self, side: u8) -> State
        ensures { result ≡ boxed side self }
    {
        State {
            gear_box: side,
            ..self
        }
    }

    // The box once the phase's order is taken: in gear by a set order, neutral by a release order.
    fn box_taken(self) -> u8
        ensures { result ≡ box_taken self }
    {
        match order_of(self.phase) {
            SET => 1,
            RELEASE => 0,
            _ => self.gear_box,
        }
    }

    // The stage, and stage time = clock.
    fn staged(self, stage: u8) -> State
        ensures { result ≡ staged stage self }
    {
        State {
            stage,
            stage_time: self.clock,
            ..self
        }
    }

    // Clock + amount.
    fn tick(self, amount: u32) -> State
        requires { self.clock + amount ≤ 4294967295 }
        ensures { result ≡ ticked amount self }
    {
        State {
            clock: self.clock + amount,
            ..self
        }
    }

    // The state after a step that leaves the clock within its 32 bits.
    pub(crate) fn effect(self, x: Step) -> State
        requires { (effect self x).clock ≤ 4294967295 }
        ensures { result ≡ effect self x }
    {
        match x {
            Step::FromNeutral => self.requested().enter(1),
            Step::GearToGear => self.requested().enter(6),
            Step::ToNeutral => self.requested().enter(17),
            Step::Deliver => self.staged(2),
            Step::DeviceGood => self.staged(3),
            Step::DeviceFailed => self.staged(4),
            Step::EngineWaits => self.staged(5),
            Step::Take => self.boxed(self.box_taken()).enter(next_of(self.phase)),
            Step::AskClutch => self.enter(clutch_of(self.phase)),
            Step::RaiseError => self.enter(23),
            Step::Finish => self.enter(0),
            Step::Tick(amount) => self.tick(amount),
            Step::Reset => self.enter(0),
        }
    }
}
