//! A gate that no thread can pass twice without another: the workers of a race meet at it. A race that is
//! played on one thread fails here, and so does one whose threads ask the gate and then play serially.
use super::printed::{in_order, race_text};
use std::sync::Wait;
use std::sync::atomic::Ordering::SeqCst;
use std::sync::atomic::{AtomicBool, AtomicU32};
use std::test::Fail;
use std::thread;
use test_sessions::HANDOVER;
use vt_base::CallerNo;
use vt_io::Gate;

// How often a caller that is held looks again.
const TURNS: u32 = 1_000_000;

// Holds caller 1's call 0 until it was asked for caller 2's call 1, and caller 2's call 1 until it was
// asked for caller 1's call 1.
#[derive(Drop)]
struct TwoHolds {
    one_came: AtomicBool,
    two_came: AtomicBool,
    holds: AtomicU32,
    failed: AtomicBool,
}

impl TwoHolds {
    fn new() -> TwoHolds {
        TwoHolds {
            one_came: AtomicBool::new(false),
            two_came: AtomicBool::new(false),
            holds: AtomicU32::new(0),
            failed: AtomicBool::new(false),
        }
    }

    fn hold(&self, came: &AtomicBool) {
        self.holds.fetch_add(1, SeqCst);
        for _ in 0..TURNS {
            if came.load(SeqCst) {
                return;
            }
            thread::yield_now();
        }
        self.failed.store(true, SeqCst);
    }
}

impl Gate for TwoHolds {
    fn before<R: Wait>(&self, _rt: &R, caller: CallerNo, seq: u32) {
        match (caller.get(), seq) {
            (1, 0) => self.hold(&self.two_came),
            (1, 1) => self.one_came.store(true, SeqCst),
            (2, 1) => {
                self.two_came.store(true, SeqCst);
                self.hold(&self.one_came);
            }
            _ => (),
        }
    }
}

#[test]
fn meeting(rt: HostRuntime) -> Result<(), Fail> {
    let gate = TwoHolds::new();
    let printed = race_text(&rt, rt.alloc(), HANDOVER.as_bytes(), &gate)?;
    assert_eq!(rt; gate.holds.load(SeqCst), 2, "both holds were asked");
    assert!(rt; !gate.failed.load(SeqCst), "each hold ended");
    assert_eq!(rt; printed.status, 0);
    assert!(rt;
        in_order(printed.out.held(), &["\np2 0 ", "\np1 0 ", "\np2 1 "]),
        "the order that the gate forces"
    );
    Ok(())
}
