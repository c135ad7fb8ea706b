use crate::adding::{add, add_number};
use std::io::{IsTerminal, Write};
use std::time::Instant;
use vt_base::Bytes;
use vt_explore::Progress;

/// How many more states there are until the next line.
const STEP: usize = 8_192;

/// Tells a person at a terminal on standard error how far a search is.
#[derive(Drop)]
pub(crate) struct Teller<'a> {
    rt: &'a HostRuntime,
    start: Option<Instant>,
    // with how many states the next line comes; none if standard error is no terminal
    next: Option<usize>,
    told: bool,
}

impl<'a> Teller<'a> {
    /// At the start of a search.
    pub(crate) fn new(rt: &'a HostRuntime) -> Teller<'a> {
        let next = if rt.stderr().is_terminal() {
            Some(STEP)
        } else {
            None
        };
        let start = match Instant::now(rt) {
            Ok(start) => Some(start),
            Err(_) => None,
        };
        Teller {
            rt,
            start,
            next,
            told: false,
        }
    }

    /// Clears the line.
    pub(crate) fn finish(&self) {
        if self.told {
            let _ = self.rt.stderr().write_all(b"\r\x1b[K");
        }
    }

    fn seconds(&self) -> u64 {
        match self.start {
            Some(start) => match start.elapsed(self.rt) {
                Ok(passed) => passed.as_secs(),
                Err(_) => 0,
            },
            None => 0,
        }
    }

    fn write(&self, states: usize) {
        let alloc = self.rt.alloc();
        let mut line = Bytes::new(alloc);
        let made = add(alloc, &mut line, b"\r").is_ok()
            && add_number(alloc, &mut line, states as u64).is_ok()
            && add(alloc, &mut line, b" states, ").is_ok()
            && add_number(alloc, &mut line, self.seconds()).is_ok()
            && add(alloc, &mut line, b" s").is_ok();
        if made {
            // (a line that can't be written is left out)
            let _ = self.rt.stderr().write_all(line.as_slice());
        }
    }
}

impl<'a> Progress for Teller<'a> {
    fn tell(&mut self, states: usize) {
        if let Some(next) = self.next {
            if next <= states {
                self.write(states);
                self.told = true;
                self.next = Some(states.saturating_add(STEP));
            }
        }
    }
}
