//! Tests of a guard: what is held back, and until when; and what a restart with too little would let happen. By hand.

use pm_base::Limits;
use pm_guard::{ALWAYS, Band, Guard};
use std::process::Abort;

const FIFTY: Limits = Limits {
    floor: -50,
    ceiling: 50,
};

#[test]
fn a_child_is_told_once_another_promised(rt: HostRuntime) {
    let alloc = rt.alloc();
    let mut guard = Guard::new(alloc, FIFTY);
    assert!(rt; guard.add(alloc, Band::power(1, 50)).expect(&rt, "memory"));
    assert!(rt; guard.add(alloc, Band::power(1, 0)).expect(&rt, "memory"));
    assert!(rt; guard.choose(&[0, 50]) == Some(0));
    assert!(rt; !guard.tell(1, Band::power(2, 50)).expect(&rt, "memory"));
    assert!(rt; guard.tell(0, Band::power(2, 0)).expect(&rt, "memory"));
    assert!(rt; guard.worst() == 50 && guard.best() == 0 && guard.is_inside());
    assert!(rt; guard.choose(&[0, 50]).is_none());
    guard.take_promise(0, 2);
    guard.take_promise(0, 1);
    assert!(rt; guard.worst() == 0 && guard.choose(&[0, 50]) == Some(1));
    assert!(rt; guard.tell(1, Band::power(2, 50)).expect(&rt, "memory"));
    assert!(rt; guard.choose(&[0, 50]).is_none());
    // Its fallback counts whatever it promises; and under lower limits nothing grows.
    assert!(rt;
        guard
            .tell(0, Band::power(ALWAYS, -30))
            .expect(&rt, "memory")
    );
    guard.take_promise(0, 3);
    assert!(rt; guard.best() == -30 && guard.worst() == 20 && guard.len() == 2);
    guard.set_limits(Limits {
        floor: -50,
        ceiling: 10,
    });
    assert!(rt; !guard.is_inside() && !guard.may_tell(1, 51, 51) && guard.may_tell(1, 5, 5));
}
