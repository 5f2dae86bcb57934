//! A helper that ends at once and is started again.
use crate::Window;

// Five starts, and whether a sixth is allowed at a moment.
const SIXTH: [([u64; 5], u64, bool); 6] = [
    ([0, 1, 2, 3, 4], 59_999, false),
    ([0, 1, 2, 3, 4], 60_000, true),
    ([0, 0, 0, 0, 0], 60_000, true),
    // A clock that falls: the moments count as 70,000.
    ([70_000, 0, 0, 0, 0], 129_999, false),
    ([70_000, 0, 0, 0, 0], 130_000, true),
    ([0, 0, 0, 0, u64::MAX], 0, true),
];

#[test]
fn a_sixth_start_is_allowed_once_the_first_is_a_minute_ago(rt: HostRuntime) {
    for (starts, now, allowed) in SIXTH {
        let mut window = Window::new();
        for start in starts {
            assert!(rt; window.ask(start), "{starts:?}");
        }
        assert_eq!(rt; window.ask(now), allowed, "{starts:?} and {now}");
    }
}

#[test]
fn a_refused_start_takes_no_place(rt: HostRuntime) {
    let mut window = Window::new();
    for start in [0, 1, 2, 3, 4] {
        assert!(rt; window.ask(start));
    }
    assert!(rt; !window.ask(59_999));
    assert!(rt; !window.ask(59_999));
    assert!(rt; window.ask(60_000));
    assert!(rt; !window.ask(60_000));
    assert!(rt; window.ask(60_001));
}
