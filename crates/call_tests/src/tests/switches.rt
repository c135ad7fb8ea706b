//! Handshakes over the display. Expected answers were computed by hand from the rules of switching.
use super::checks::check;
use vt_base::{CallerNo, ConsoleNo, VtMode};
use vt_switch::{Asked, Switch};

const PROCESS: VtMode = VtMode {
    mode: 1,
    waitv: 0,
    relsig: 10,
    acqsig: 12,
    frsig: 0,
};

// Consoles 1 and 2, and process 4.
#[derive(Clone, Copy)]
struct Names {
    one: ConsoleNo,
    two: ConsoleNo,
    owner: CallerNo,
}

fn named() -> Names {
    Names {
        one: ConsoleNo::numbered(1),
        two: ConsoleNo::numbered(2),
        owner: CallerNo::numbered(4),
    }
}

// Consoles 1 to 3; the process handles the switches of 1, which is in front, and 2 waits.
fn waiting(n: &Names) -> Switch {
    let mut switch = Switch::start(ConsoleNo::numbered(1), 0b1110);
    let _set = switch.set_mode(n.one, n.owner, PROCESS);
    let _asked = switch.request(n.two);
    switch
}

// Ends the handshake in one of four ways: the owner lets go, dies, gives up its handling, or refuses.
fn end(switch: &mut Switch, n: &Names, way: u32) -> bool {
    match way {
        0 => switch.release(n.one, n.owner, 1).is_ok(),
        1 => switch.leave(n.owner).is_some(),
        2 => reset(switch, n),
        _ => switch.release(n.one, n.owner, 0).is_ok(),
    }
}

fn reset(switch: &mut Switch, n: &Names) -> bool {
    switch.owns(n.owner, n.one) && switch.reset(n.one, n.owner).is_some()
}

// Whether this console is in front, and none is pending.
fn is_settled(switch: &Switch, n: &Names, front: ConsoleNo) -> bool {
    switch.front() == front && switch.last() == n.one && switch.pending().is_none()
}

// Whether console 1 has an owner, and releases by this signal.
fn is_owned(switch: &Switch, n: &Names, owned: bool, relsig: u16) -> bool {
    switch.allocated(n.one)
        && switch.owner(n.one).is_some() == owned
        && switch.mode(n.one).relsig == relsig
}

// A way to end a handshake, whether it switches, whether console 1 still has an owner, and its release signal.
const ENDS: &[(u32, bool, bool, u16)] = &[
    (0, true, true, 10),
    (1, true, false, 0),
    (2, true, false, 0),
    (3, false, true, 10),
];

fn ends(way: u32, hops: bool, owned: bool, relsig: u16) -> bool {
    let n = named();
    let mut switch = waiting(&n);
    let front = if hops { n.two } else { n.one };
    switch.pending() == Some(n.two)
        && end(&mut switch, &n, way)
        && is_settled(&switch, &n, front)
        && is_owned(&switch, &n, owned, relsig)
}

#[test]
fn an_owner_lets_go_or_dies(rt: HostRuntime) {
    for &(way, hops, owned, relsig) in ENDS {
        check(&rt, ends(way, hops, owned, relsig), way);
    }
}

fn draws(switch: &mut Switch, c: ConsoleNo, graphics: bool) -> bool {
    if switch.allocated(c) {
        switch.set_kd(c, graphics);
    }
    switch.allocated(c) && switch.kd(c) == graphics
}

fn is_ignored(switch: &mut Switch, to: ConsoleNo) -> bool {
    matches!(switch.request(to), Asked::Ignored)
}

fn is_locked(switch: &mut Switch, to: ConsoleNo) -> bool {
    switch.set_lock(true);
    let locked = switch.locked();
    let ignored = is_ignored(switch, to);
    switch.set_lock(false);
    locked && ignored
}

fn hops(switch: &mut Switch, to: ConsoleNo) -> bool {
    matches!(switch.request(to), Asked::Hopped(_)) && switch.front() == to
}

fn keeps_the_display(n: &Names) -> bool {
    let mut switch = Switch::start(ConsoleNo::numbered(1), 0b110);
    draws(&mut switch, n.one, true)
        && is_ignored(&mut switch, n.two)
        && draws(&mut switch, n.one, false)
        && is_locked(&mut switch, n.two)
        && hops(&mut switch, n.two)
}

#[test]
fn graphics_and_the_lock_keep_the_display(rt: HostRuntime) {
    check(&rt, keeps_the_display(&named()), "graphics and the lock");
}
