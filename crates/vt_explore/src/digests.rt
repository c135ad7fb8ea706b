//! Digests of machines: numbers by which machines that differ mostly differ. Only time depends on them.
use crate::position::Position;
use session_text::Session;
use vt_base::{CALLERS, CallerNo, ConsoleNo, PROCESSES};
use vt_procs::Waiting;
use vt_world::World;

impl Position {
    /// A number by which machines of this session that differ mostly differ.
    pub(crate) fn digest(&self, s: &Session) -> u64 {
        let count = s.programs().len();
        let mut digest = digest_of_display(&self.world);
        for n in 0..CALLERS {
            // the processes, and the keyboards before and after them
            if n < count || PROCESSES < n {
                digest = self.digest_of_caller(n as u16, digest);
            }
        }
        digest
    }

    // The digest of the caller of this number, after the others.
    fn digest_of_caller(&self, n: u16, start: u64) -> u64 {
        let Some(p) = CallerNo::new(n) else {
            return start;
        };
        let digest = mixed(start, self.standing.walk(p).digest());
        if !self.world.live(p) {
            return digest;
        }
        let signals = mixed(digest, self.world.signals_of(p).bits());
        mixed(signals, digest_of_wait(self.world.wait_of(p)))
    }
}

// The digest of the display, with its consoles and their input.
fn digest_of_display(world: &World) -> u64 {
    let mut digest = mixed(world.hops(), u64::from(world.display().get()));
    digest = mixed(digest, u64::from(world.locked()));
    if let Some(c) = world.pending_console() {
        digest = mixed(digest, u64::from(c.get()));
    }
    for c in ConsoleNo::all() {
        digest = digest_of_console(world, c, digest);
    }
    digest
}

// The digest of a console, if it is allocated, after the others.
fn digest_of_console(world: &World, c: ConsoleNo, digest: u64) -> u64 {
    if world.screen(c).is_none() {
        return digest;
    }
    let mut digest = digest;
    if let Some(owner) = world.owner(c) {
        digest = mixed(digest, 64 * u64::from(owner.get()) + u64::from(c.get()));
    }
    if world.graphics(c) {
        digest = mixed(digest, 8_192 + u64::from(c.get()));
    }
    let bytes = world.queue(c).len();
    if bytes != 0 {
        digest = mixed(digest, 64 * (bytes as u64) + u64::from(c.get()));
    }
    digest
}

fn digest_of_wait(wait: Waiting) -> u64 {
    match wait {
        Waiting::Nothing => 1,
        Waiting::Open(_) => 2,
        Waiting::Done => 3,
        Waiting::Broken => 4,
    }
}

// Mixes a number into a digest.
fn mixed(digest: u64, n: u64) -> u64 {
    let x = (digest ^ n).wrapping_mul(0x9E37_79B9_7F4A_7C15);
    x ^ (x >> 29)
}
