// The first of some events that is enabled, and the last where none is.
use crate::{Event, Variables, first_of};

// An event that is told by the time behind it.
fn event(enabled: bool, time: u32) -> Event {
    let after = Variables {
        time,
        ..Variables::initialisation()
    };
    Event::free(enabled, after)
}

#[test]
fn the_first_that_is_enabled(rt: HostRuntime) {
    for (first, second, third, time) in [
        (true, true, true, 1),
        (true, false, false, 1),
        (false, true, true, 2),
        (false, true, false, 2),
        (false, false, true, 3),
        (false, false, false, 3),
    ] {
        let found = first_of(event(first, 1), &[event(second, 2), event(third, 3)]);
        assert_eq!(rt; found.after.time, time, "of {first}, {second}, {third}");
        assert_eq!(rt;
            found.enabled,
            first | second | third,
            "of {first}, {second}, {third}"
        );
    }
    for enabled in [true, false] {
        let found = first_of(event(enabled, 1), &[]);
        assert_eq!(rt; found.after.time, 1, "of one that is {enabled}");
        assert_eq!(rt; found.enabled, enabled, "of one that is {enabled}");
    }
}
