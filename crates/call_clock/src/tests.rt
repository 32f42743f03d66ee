//! Timers by rank, worked out by hand: no program runs on them.
use crate::Timers;

/// So many ticks, the rank that ends with them, and what is due then.
#[test]
fn the_lowest_rank_comes_first(rt: HostRuntime) {
    let mut timers = Timers::new();
    timers.start(7, 30);
    timers.start(5, 20);
    timers.start(0, 31);
    timers.start(1, 20);
    timers.start(6, 20);
    timers.stop(6);
    for (n, rank, due) in [
        (0, None, Some(20)),
        (19, None, Some(1)),
        (1, Some(1), Some(0)),
        (0, Some(5), Some(10)),
        (10, Some(7), Some(1)),
        (1, Some(0), None),
        (4_294_967_295, None, None),
    ] {
        if let Some(most) = timers.due() {
            assert!(rt; n <= most);
        }
        assert_eq!(rt; (timers.pass(n), timers.due()), (rank, due), "after {n}");
    }
}
