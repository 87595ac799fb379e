// Times against limits, without wrapping.
#![tactic(auto)]

ghost use Rattle.std.specs.Prelude.{◌≡◌, ◌+◌, ◌-◌, ltb};

// A tick would move the clock past its 32 bits.
pub fn overruns(clock: u32, amount: u32) -> bool
    ensures { result ≡ ltb 4294967295 (clock + amount) }
{
    clock.checked_add(amount).is_none()
}

// A tick to `now` passes the limit that runs from `time`. Equal is allowed.
pub fn passes(now: u64, time: u32, limit: u16) -> bool
    ensures { result ≡ ltb (time + limit) now }
{
    bound(time, limit) < now
}

// A take is too late for the EX that runs from `time`. Equal is allowed.
pub fn is_late(clock: u32, time: u32, ex: u16) -> bool
    ensures { result ≡ ltb (time + ex) clock }
{
    passes(u64::from(clock), time, ex)
}

// A step is too early for the delay that runs from `time`. Equal is allowed. The time since is asked for, which leaves the judge's loop
// more room than the sum.
pub fn is_early(clock: u32, time: u32, delay: u16) -> bool
    ensures { result ≡ ltb clock (time + delay) }
{
    clock < time || clock - time < u32::from(delay)
}

// A time, and a limit from it on.
pub fn bound(time: u32, limit: u16) -> u64
    ensures { result ≡ time + limit }
{
    u64::from(time) + u64::from(limit)
}

// The milliseconds by which a clock is past a bound, 0 where it is not.
pub fn beyond(clock: u64, bound: u64) -> u64
    ensures { result ≡ clock - bound }
{
    clock.saturating_sub(bound)
}
